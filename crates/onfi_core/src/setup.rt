ghost use Rattle.std.specs.Prelude.{◌≡◌, ℕ, ◌<◌, ◌≤◌, ◌↔◌, IfOk, IsErrOf, IsTrue};
ghost use Rattle.onfi_core.specs.Ranges.{IsBetween};
ghost use Rattle.onfi_core.specs.Stated.{StatesParts};
ghost use Rattle.onfi_core.specs.declared.setup.Choice.TheVariants.{InOrder};

use onfi_addr::Geometry;
use onfi_group::Rules;
use onfi_request::has_part;
use onfi_timing::{Kind, Timing};
use thiserror::Error;

/// By what a channel runs its phases.
#[derive(Clone, Copy, Debug, Default, PartialEq, Eq)]
pub enum Choice {
    /// By plans: the wants not started, and after them the first items that no plan has taken, up to the batch in all.
    #[default]
    InOrder,
    /// By no plan: whenever the bus is free, by the phase that [`Dispatcher::next`](onfi_steady::Dispatcher::next) gives of all
    /// that is accepted. The batch and the limit aren't looked at.
    NextPhase,
}

/// What never changes of a core, and the batch that its channels open with. Each value is in the range that its ghost
/// fields say.
#[derive(Clone, Copy, Debug, PartialEq, Eq)]
pub struct Setup {
    /// How the chips are addressed.
    pub geometry: Geometry,
    /// The phase lengths, in ns.
    pub timing: Timing,
    /// Which operations may be grouped.
    pub rules: Rules,
    /// Channels, 1 to 4.
    pub channels: u8,
    /// Hosts, 1 to 4.
    pub hosts: u8,
    /// Wants of one plan, 1 to 8.
    pub batch: u8,
    /// How many items wait in a channel's submission queue, 1 to 1,024.
    pub submit_cap: u16,
    /// How many replies a completion queue holds, 1 to 1,024.
    pub post_cap: u16,
    /// How many nodes one planning opens, 1 to 1,048,576.
    pub limit: u32,
    /// By what phases run.
    pub choice: Choice,
    // A byte, below 256 in each setup that a program has. Of one that a proof makes up `stated` may say nothing: a batch is
    // driven as if by such a one, whatever its timing states.
    mark: u8,
    ghost some_channel: { 1 ≤ channels },
    ghost few_channels: { channels ≤ 4 },
    ghost some_host: { 1 ≤ hosts },
    ghost few_hosts: { hosts ≤ 4 },
    ghost some_batch: { 1 ≤ batch },
    ghost small_batch: { batch ≤ 8 },
    ghost some_room: { 1 ≤ submit_cap },
    ghost little_room: { submit_cap ≤ 1024 },
    ghost some_posts: { 1 ≤ post_cap },
    ghost few_posts: { post_cap ≤ 1024 },
    ghost some_node: { 1 ≤ limit },
    ghost few_nodes: { limit ≤ 1048576 },
    ghost stated: { mark < 256 → StatesParts geometry timing },
}

/// What is wrong with a setup: a number out of range, or lengths that the timing lacks, in the order in which it is reported.
#[derive(Clone, Copy, Debug, PartialEq, Eq, Error)]
pub enum SetupFault {
    /// Not 1 to 4 channels.
    #[error("not 1 to 4 channels")]
    Channels,
    /// Not 1 to 4 hosts.
    #[error("not 1 to 4 hosts")]
    Hosts,
    /// Not 1 to 8 wants of one plan.
    #[error("a batch that is not 1 to 8")]
    Batch,
    /// A submission queue that doesn't hold 1 to 1,024 items.
    #[error("a submission queue that does not hold 1 to 1,024 items")]
    SubmitCap,
    /// A completion queue that doesn't hold 1 to 1,024 replies.
    #[error("a completion queue that does not hold 1 to 1,024 replies")]
    PostCap,
    /// Not 1 to 1,048,576 nodes.
    #[error("a search limit that is not 1 to 1,048,576")]
    Limit,
    /// Sectors that a page has, of which the timing doesn't state how long they take.
    #[error("sectors of a page whose length is not stated")]
    Lengths,
}

/// Whether the timing states how long each kind takes of which a page has what it puts out.
fn states_parts(geometry: &Geometry, timing: &Timing) -> bool
    ensures { IsTrue result ↔ StatesParts geometry.now timing.now }
{
    for count in 1..8u8 {
        let kind = Kind::ReadSectors { first: 0, count };
        if has_part(geometry, kind) && !timing.states(kind) {
            return false;
        }
    }
    true
}

// A byte is below 256. It is a fact for proofs: nothing is done.
fn is_byte(byte: u8)
    ensures { byte < 256 }
{
    let _ = byte;
}

impl Setup {
    /// The setup of this number of channels with chips of this geometry and timing, of hosts, of wants in a batch,
    /// of places in submission and completion queues, and of nodes for one planning. Items are planned in order;
    /// [`Setup::with_choice`] changes that.
    ///
    /// # Errors
    /// The first of `Channels`, `Hosts`, `Batch`, `SubmitCap`, `PostCap` and `Limit` whose number is out of range; else `Lengths`
    /// where the timing doesn't state the posts of all sectors that a page has, one to seven.
    pub fn new(
        geometry: Geometry,
        timing: Timing,
        rules: Rules,
        channels: u8,
        hosts: u8,
        batch: u8,
        submit_cap: u16,
        post_cap: u16,
        limit: u32,
    ) -> Result<Setup, SetupFault>
        ensures device { IfOk result (λ s. (s.geometry ≡ geometry) × (s.timing ≡ timing) × (s.rules ≡ rules)) }
        ensures counts { IfOk result (λ s. (s.channels ≡ channels) × (s.hosts ≡ hosts) × (s.batch ≡ batch)) }
        ensures room { IfOk result (λ s. (s.submit_cap ≡ submit_cap) × (s.post_cap ≡ post_cap) × (s.limit ≡ limit)) }
        ensures choice { IfOk result (λ s. s.choice ≡ InOrder) }
        ensures channels { IsErrOf result SetupFault.Channels ↔ ¬ IsBetween 1 4 channels }
        ensures hosts { IsErrOf result SetupFault.Hosts ↔ (IsBetween 1 4 channels × ¬ IsBetween 1 4 hosts) }
        ensures batch { IsErrOf result SetupFault.Batch ↔ (IsBetween 1 4 channels × IsBetween 1 4 hosts × ¬ IsBetween 1 8 batch) }
        ensures submit_cap { IsErrOf result SetupFault.SubmitCap
            ↔ (IsBetween 1 4 channels × IsBetween 1 4 hosts × IsBetween 1 8 batch × ¬ IsBetween 1 1024 submit_cap) }
        ensures post_cap { IsErrOf result SetupFault.PostCap
            ↔ (IsBetween 1 4 channels × IsBetween 1 4 hosts × IsBetween 1 8 batch × IsBetween 1 1024 submit_cap × ¬ IsBetween 1 1024 post_cap) }
        ensures limit { IsErrOf result SetupFault.Limit
            ↔ (IsBetween 1 4 channels × IsBetween 1 4 hosts × IsBetween 1 8 batch × IsBetween 1 1024 submit_cap × IsBetween 1 1024 post_cap × ¬ IsBetween 1 1048576 limit) }
        ensures lengths { IsErrOf result SetupFault.Lengths
            ↔ (IsBetween 1 4 channels × IsBetween 1 4 hosts × IsBetween 1 8 batch × IsBetween 1 1024 submit_cap × IsBetween 1 1024 post_cap × IsBetween 1 1048576 limit
            × ¬ StatesParts geometry timing) }
    {
        if channels < 1 || channels > 4 {
            return Err(SetupFault::Channels);
        }
        if hosts < 1 || hosts > 4 {
            return Err(SetupFault::Hosts);
        }
        if batch < 1 || batch > 8 {
            return Err(SetupFault::Batch);
        }
        if submit_cap < 1 || submit_cap > 1024 {
            return Err(SetupFault::SubmitCap);
        }
        if post_cap < 1 || post_cap > 1024 {
            return Err(SetupFault::PostCap);
        }
        if limit < 1 || limit > 1_048_576 {
            return Err(SetupFault::Limit);
        }
        if !states_parts(&geometry, &timing) {
            return Err(SetupFault::Lengths);
        }
        Ok(Setup {
            geometry,
            timing,
            rules,
            channels,
            hosts,
            batch,
            submit_cap,
            post_cap,
            limit,
            choice: Choice::InOrder,
            mark: 0,
        })
    }

    /// The same setup, whose channels run their phases so.
    pub fn with_choice(self, choice: Choice) -> Setup
        ensures { result ≡ record self { choice = choice } }
    {
        let mut setup = self;
        setup.choice = choice;
        setup
    }

    /// States that the timing has the lengths of all that is put out. It is a fact for proofs: nothing is done.
    pub(crate) fn states_lengths(&self)
        ensures { StatesParts self.now.geometry self.now.timing }
    {
        is_byte(self.mark);
    }
}
