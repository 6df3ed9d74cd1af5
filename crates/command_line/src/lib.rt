//! The command line of `drdad`.
#![tactic(auto)]

mod app;
mod bad_words;
mod job;
mod logins;
mod numbers;
mod spelling;
mod texts;
mod word;
mod words;

pub use bad_words::{NAME_WANTED, SIZE_WANTED, tell_bad};
pub use job::{Job, Login, LoginSource, ServeOptions};
pub use logins::login_in_file;
pub use spelling::{words_spell_one_xid, xid_text, xid_word};
pub use words::{BadWords, job_of};
