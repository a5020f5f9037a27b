//! Why a line is refused: by its form, or by the session.

ghost use Rattle.std.specs.Prelude.{◌≡◌, ◌++◌, ℕ};
ghost use Rattle.std.specs.Option.{option_copied};
ghost use Rattle.cf_reference.specs.Reasons.{number, detail};
ghost use Rattle.cf_reference.specs.Replies.{refusal as refusal_reply};
ghost use Rattle.cf_text.specs.Details.{refused_bytes};
ghost use Rattle.cf_top.specs.Views.{reason_view, last_name, line_of_name};

use cf_session::Refusal;
use cf_text::Detail;

/// Why a line is refused.
#[derive(Drop)]
pub(crate) enum Reason {
    Malformed,
    LineTooLong,
    ScriptTooLong,
    WideNumber,
    TooDeep,
    /// The line spells a statement, which the session refuses.
    Statement(Refusal),
}

impl Reason {
    /// The number that the refusal is written with.
    pub(crate) fn number(&self) -> u8
        ensures { result ≡ number (reason_view self.now) }
    {
        match self {
            Reason::Malformed => 1,
            Reason::LineTooLong => 2,
            Reason::ScriptTooLong => 3,
            Reason::WideNumber => 12,
            Reason::TooDeep => 13,
            Reason::Statement(refusal) => refusal.number(),
        }
    }

    /// What is written behind the number, up to the name if there is one.
    pub(crate) fn detail(&self) -> Detail
        ensures { (line n : ℕ) →
            refused_bytes line n result ++ line_of_name (last_name (reason_view self.now)) ≡
            refusal_reply line n (detail (reason_view self.now)) }
    {
        match self {
            Reason::Statement(Refusal::Overflow(at)) => Detail::At(*at),
            Reason::Statement(Refusal::Circuit(line, why)) => Detail::Two(*line, *why as u64),
            Reason::Statement(Refusal::Links(fault)) => {
                let kind = u64::from(fault.number());
                match fault.name() {
                    Some(_) => Detail::Named(kind),
                    None => Detail::One(kind),
                }
            }
            _ => Detail::Nothing,
        }
    }

    /// The name that is written last, if there is one.
    pub(crate) fn name(&self) -> Option<&[u8]>
        ensures { option_copied result ≡ last_name (reason_view self.now) }
    {
        match self {
            Reason::Statement(Refusal::Links(fault)) => fault.name(),
            _ => None,
        }
    }
}
