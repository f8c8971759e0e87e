//! The texts of help. Times are ns, statuses are those that the program ends with.

pub const VERSION: &str = "0.9.0";

pub const PROGRAM: &str =
    "Plans a channel of NAND dies on one ONFI bus, checks such plans, and runs hosts' operations.";

pub const PROGRAM_MORE: &str = "\
The script is read from FILE, or from standard input; the answer goes to standard output, messages to standard error.
Statuses: 0 done; 1 the script is refused; 2 the plan text, its certificate or the log is; 3 a channel stopped or was left
unfinished; 4 memory was refused; 5 the command line is, or asks for help; 6 the search isn't over; 7 a read or write failed;
8 legal, and proved to end at most so much later than the optimum. Formats of scripts and answers: docs/FORMATS.md

Example:
  onfi_sim plan examples/batch.onfi > batch.plan
  onfi_sim check examples/batch.onfi batch.plan";

pub const PLAN: &str =
    "Makes the bus schedule that ends soonest, with a certificate that nothing ends sooner.";

pub const PLAN_MORE: &str = "\
Input: a script of rows up to the line 'end': a device, the state of bus and LUNs, up to eight requests.
Output: the plan text: its finish in ns, the starts of each group's phases, the certificate; with --by within or rule a line
'below N' where the plan may not be optimal: nothing ends before N ns.
Statuses: 0 planned; 1 script refused; 4 memory refused; 5 words refused; 6 search not over; 7 a read or write failed.

Example:
  onfi_sim plan --by within --early examples/batch.onfi";

pub const CHECK: &str =
    "Says whether a plan text is legal, ends when it says, and is optimal by its certificate.";

pub const CHECK_MORE: &str = "\
Input: a script up to its line 'end', and a plan text behind that line or in the file PLAN. Whoever made it isn't trusted.
Output: 'accepted N', the finish in ns, or what is wrong; by 'within' also 'within N M': it ends at N ns, and nothing ends
before M; with --legal 'legal N', the time at which the schedule ends.
Statuses: 0 accepted or legal; 1 script refused; 2 plan text or certificate refused; 4 memory refused; 5 words refused;
7 a read or write failed; 8 'within'.

Example:
  onfi_sim plan examples/batch.onfi > batch.plan
  onfi_sim check examples/batch.onfi batch.plan";

pub const RUN: &str =
    "Runs hosts' operations on simulated chips, a thread for each channel and each host.";

pub const RUN_MORE: &str = "\
Input: a script of page and sheet rows, channels, hosts and operations (op, opread), up to the line 'end'.
Output: a line for each reply, by host, channel and number, then 'closed'; with --clock each reply has its moment in ns, and
lines say how long buses were busy and operations took.
Statuses: 0 each operation has its reply; 1 script refused; 3 a channel stopped or was left unfinished; 4 memory refused;
5 words refused; 6 a plan wasn't over within the limit; 7 a read or write failed.

Example:
  onfi_sim run --by next --clock simulated examples/two-hosts.onfi";

pub const DEVICE: &str =
    "Says what a parameter page tells of its device, and how long each kind of operation takes there.";

pub const DEVICE_MORE: &str = "\
Input: a script as for 'plan', with page rows, and with sheet rows where lengths are asked for, up to the line 'end'.
Output: a line NAME,N for each field of the page that is looked at, times in ns; then the rows 'shape' and 'spans' that say the
same of the device, or 'refused,NAME': why none can be planned for.
Statuses: 0 described; 1 script refused, or it holds no page; 4 memory refused; 5 words refused; 7 a read or write failed.

Example:
  onfi_sim device examples/program-by-page.onfi";

pub const AUDIT: &str =
    "Says whether a log of phases is legal, of any length, or which line breaks which condition.";

pub const AUDIT_MORE: &str = "\
Input: a script up to its line 'end', of a device and the state of bus and LUNs, and a log after it or in the file LOG: a line
START LUN KIND PART BLOCK PAGE for each phase in rising start, or one of 'plan --trace'; a comment begins with '#'.
Requests are those of the script (want), any number; without such rows each first command of one mentions it.
Output: 'legal N', the number of phases; 'illegal LINE CONDITION ..' of the first line that breaks a condition, with --all of
each; or 'refused log LINE'. With --optimum lines 'piece', 'gap' and 'bound' say how far a legal log is from the best.

Statuses: 0 legal; 1 the script is refused; 2 illegal, or the log is refused; 4 memory was refused; 5 the command line is
refused; 7 a read or write failed.

Example:
  onfi_sim plan --trace examples/batch.onfi > batch.log
  onfi_sim audit --optimum examples/batch.onfi batch.log";

pub const BY_PLAN: &str =
    "'plain': the optimum; 'within': the best plan within the limit; 'rule': no search, in microseconds [plain]";

pub const BY_CHECK: &str =
    "'plain': plan texts as 'plan' prints them; 'within': those of 'plan --by within' and '--by rule' [plain]";

pub const BY_RUN: &str =
    "Plan batches by 'plain', 'within' or 'rule'; 'next': plan none, and run what may go first [plain]";

pub const EARLY_PLAN: &str =
    "Let requests end early by the weights of the script, and nothing later than the plan does";

pub const EARLY_RUN: &str =
    "Let requests end early by their age, and nothing later than its plan does";

pub const LIMIT: &str =
    "Open at most N nodes in the search for a plan, 1 to 1048576 [1048576, by 'within' 65536]";

pub const WORKERS: &str =
    "Search by N workers, 1 to 8, by 'plain' alone; the plan is the same for any number [1]";

pub const TRACE: &str = "Print a line for each phase in place of the plan";

pub const REQUESTS: &str = "Print that trace with the request of each line as a last column";

pub const CLOCK_RUN: &str =
    "'simulated': one clock drives the run, and no threads; the same script gives the same times";

pub const TRACE_RUN: &str = "Write the phases that ran to the file LOG, a line each";

pub const LEGAL: &str = "Say whether the schedule is legal and when it ends; needs no certificate";

pub const QUIET: &str = "Say nothing on standard error";

pub const FILE: &str = "The script; '-' or none is standard input";

pub const PLAN_FILE: &str = "The plan text; none: it stands behind the script";

pub const ALL: &str = "Report each line that breaks a condition, not the first alone";

pub const READY_BY_STATUS: &str =
    "Take lines 'START LUN ready' and 'START LUN edge': by its status or its R/B# that LUN was ready then";

pub const TOLERANCE: &str =
    "Take phases that come at most NS ns too soon; 'used N' then says by how much one did at most";

pub const ONE_STATUS: &str =
    "Take a status of a program or an erase as that of all planes of its group, as captures have it";

pub const OPTIMUM: &str =
    "Say how much later a legal log ended its pieces than they could end, by plans of at most eight requests";

pub const LIMIT_AUDIT: &str =
    "With --optimum: open at most N nodes for a piece's plan, 1 to 1048576; 65536 where none is named";

pub const CSV: &str = "With --optimum: print a table of pieces alone";

pub const LOG_FILE: &str = "The log; none: it stands behind the script";
