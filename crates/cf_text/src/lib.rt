// Replies and refusals as texts, which take no memory.
#![tactic(auto)]

mod refusals;
mod replies;
mod text;

pub use refusals::{Detail, refused_text};
pub use replies::{
    bits_text, different_text, equal_text, listed_text, none_text, size_text, stats_text,
    usage_text, value_text,
};
pub use text::Text;
