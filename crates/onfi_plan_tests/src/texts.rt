//! What a reader is shown of each fault.
use onfi_cert::CertTextFault;
use onfi_check::{CertFault, TextFault};
use onfi_planner::PlanFault;
use onfi_problem::ProblemFault;

#[test]
fn texts_of_problems_and_plans(rt: HostRuntime) {
    for (fault, text) in [
        (
            ProblemFault::TooMany,
            "more than 8 wants, or not 1 to 8 LUNs",
        ),
        (
            ProblemFault::BadLun,
            "a want, or a running group, that the LUNs cannot have",
        ),
        (ProblemFault::Clock, "times that reach 2^62 ns"),
        (ProblemFault::Memory, "memory was refused"),
    ] {
        let printed = format!(in rt.alloc(); "{fault}").expect(&rt, "memory");
        assert_eq!(rt; printed.as_str(), text);
    }
    for (fault, text) in [
        (
            PlanFault::Over { opened: 7 },
            "the search opened 7 nodes and isn't over",
        ),
        (PlanFault::Memory, "memory was refused"),
    ] {
        let printed = format!(in rt.alloc(); "{fault}").expect(&rt, "memory");
        assert_eq!(rt; printed.as_str(), text);
    }
}

#[test]
fn texts_of_certificates(rt: HostRuntime) {
    for (fault, text) in [
        (
            TextFault::Text(CertTextFault::Header),
            "the header line is none of a certificate",
        ),
        (
            TextFault::Text(CertTextFault::BadToken(3)),
            "no token at place 3",
        ),
        (
            TextFault::Text(CertTextFault::TooLong),
            "more than 100,000,000 tokens",
        ),
        (TextFault::Text(CertTextFault::Memory), "out of memory"),
        (
            TextFault::Option,
            "the header names another option than the problem has",
        ),
        (
            TextFault::Cert(CertFault::Illegal),
            "the schedule is illegal",
        ),
        (TextFault::Cert(CertFault::Short), "the tokens end too soon"),
        (
            TextFault::Cert(CertFault::Trailing(1)),
            "token 1 stands after the tree",
        ),
        (
            TextFault::Cert(CertFault::Width(0)),
            "token 0 has another width than there are moves",
        ),
        (
            TextFault::Cert(CertFault::BoundLow(2)),
            "the bound at token 2 doesn't reach the finish",
        ),
        (
            TextFault::Cert(CertFault::YieldNoFit(1)),
            "the yield at token 1 doesn't fit",
        ),
        (
            TextFault::Cert(CertFault::YieldLoop(2)),
            "the yield at token 2 goes round",
        ),
        (
            TextFault::Cert(CertFault::NotEnd(0)),
            "token 0 isn't the end",
        ),
        (TextFault::Cert(CertFault::Memory), "out of memory"),
    ] {
        let printed = format!(in rt.alloc(); "{fault}").expect(&rt, "memory");
        assert_eq!(rt; printed.as_str(), text);
    }
}
