//! Certificates of the channel sequencer as tokens and as text.
//!
//! A certificate is a tree of claims about a schedule, written in preorder as a list of [`Token`]s. This crate
//! alone gives its one spelling: [`write`] spells a list of tokens, [`read`] takes exactly the texts that `write`
//! makes and says of every other text what is wrong and at which token, [`Tokens`] reads a text token by token
//! without memory, and [`TokenSource`] lets a checker walk over a list and over a text alike. [`LineTokens`] and
//! [`text_after`] do so for tokens of any kind that is [`Spelled`].
//!
//! A text is a header line, the tokens joined by single spaces, and one LF. The header is `ONFICERT 1`, or
//! `ONFICERT 2 strict` where the strict option is on.
#![tactic(auto)]

mod fault;
mod header;
mod joining;
mod laws;
mod limits;
mod line_tokens;
mod lun_number;
mod numbered;
mod reading;
mod source;
mod spelled;
mod step;
mod token;
mod token_list;
mod tokens;
mod width;
mod word;
mod writing;

pub use fault::{CertTextFault, LineFault};
pub use header::option_of;
pub use joining::join;
pub use laws::{one_reading, read_back};
pub use limits::MOST_TOKENS;
pub use line_tokens::LineTokens;
pub use lun_number::LunNumber;
pub use numbered::Numbered;
pub use reading::read;
pub use source::TokenSource;
pub use spelled::Spelled;
pub use token::Token;
pub use token_list::TokenList;
pub use tokens::Tokens;
pub use width::Width;
pub use word::{cut_word, token_of};
pub use writing::{text_after, write};
