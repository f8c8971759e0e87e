//! What a call answers, with a place.
use crate::status::Status;
use onfi_cert::CertTextFault;
use onfi_check::{CertFault, TextFault};
use onfi_known_check::{KnownFault, KnownTextFault};

/// What a call answers, and the place that it speaks of; 0 where it speaks of none.
#[derive(Clone, Copy)]
pub struct Refusal {
    pub status: Status,
    pub place: u64,
}

impl Refusal {
    ghost use Rattle.std.specs.Prelude.{◌≡◌};
    ghost use Rattle.onfi_calls.specs.Refusal.{whole, cert_refusal, cert_text_refusal, text_refusal, known_refusal, known_text_refusal};

    /// What speaks of no place.
    pub fn whole(status: Status) -> Refusal
        ensures { result ≡ whole status }
    {
        Refusal { status, place: 0 }
    }

    /// The refusal for a fault of the tokens of a certificate, with its place.
    fn of_cert(fault: CertFault) -> Refusal
        ensures { result ≡ cert_refusal fault }
    {
        let (status, place) = match fault {
            CertFault::Illegal => return Refusal::whole(Status::Illegal),
            CertFault::Short => return Refusal::whole(Status::Short),
            CertFault::Memory => return Refusal::whole(Status::Memory),
            CertFault::Trailing(place) => (Status::Trailing, place),
            CertFault::Width(place) => (Status::Width, place),
            CertFault::BoundLow(place) => (Status::BoundLow, place),
            CertFault::YieldNoFit(place) => (Status::YieldNoFit, place),
            CertFault::YieldLoop(place) => (Status::YieldLoop, place),
            CertFault::NotEnd(place) => (Status::NotEnd, place),
        };
        Refusal {
            status,
            place: place as u64,
        }
    }

    /// The refusal for a fault of a text that is no certificate, with its place.
    fn of_cert_text(fault: CertTextFault) -> Refusal
        ensures { result ≡ cert_text_refusal fault }
    {
        match fault {
            CertTextFault::Header => Refusal::whole(Status::BadHeader),
            CertTextFault::BadToken(place) => Refusal {
                status: Status::BadToken,
                place: u64::from(place),
            },
            CertTextFault::TooLong => Refusal::whole(Status::TooManyTokens),
            CertTextFault::Memory => Refusal::whole(Status::Memory),
        }
    }

    /// The refusal that says why the text of a certificate doesn't show that a schedule ends first.
    pub fn of_text(fault: TextFault) -> Refusal
        ensures { result ≡ text_refusal fault }
    {
        match fault {
            TextFault::Text(fault) => Refusal::of_cert_text(fault),
            TextFault::Cert(fault) => Refusal::of_cert(fault),
            TextFault::Option => Refusal::whole(Status::OtherOption),
        }
    }

    /// The refusal for a fault of a schedule or of the tokens of a certificate that remembers states, with its place.
    fn of_known(fault: KnownFault) -> Refusal
        ensures { result ≡ known_refusal fault }
    {
        let (status, place) = match fault {
            KnownFault::Cert(fault) => return Refusal::of_cert(fault),
            KnownFault::Above => return Refusal::whole(Status::EndsBefore),
            KnownFault::Unknown(place) => (Status::UnknownNode, place),
            KnownFault::OtherLeft(place) => (Status::OtherLeft, place),
            KnownFault::Sooner(place) => (Status::Sooner, place),
            KnownFault::TooMany(place) => (Status::TooManyNodes, place),
        };
        Refusal {
            status,
            place: place as u64,
        }
    }

    /// The refusal that says why the text of a certificate that remembers states doesn't show that nothing ends before a schedule, or
    /// before a number then or sooner.
    pub fn of_known_text(fault: TextFault<KnownFault, KnownTextFault>) -> Refusal
        ensures { result ≡ known_text_refusal fault }
    {
        match fault {
            TextFault::Text(KnownTextFault::Header) => Refusal::whole(Status::BadHeader),
            TextFault::Text(KnownTextFault::BadToken(place)) => Refusal {
                status: Status::BadToken,
                place: place as u64,
            },
            TextFault::Cert(fault) => Refusal::of_known(fault),
            TextFault::Option => Refusal::of_text(TextFault::Option),
        }
    }
}
