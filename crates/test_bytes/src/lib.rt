//! Bytes as the tests write them down, and commands and replies that many of them send and await.
#![tactic(auto)]

mod hexadecimal;
pub mod sentences;
mod texts;

pub use hexadecimal::{bytes_of, push_texts};
pub use texts::{
    ACCRDB, ACCRDBRM, ACCSEC, ACCSECRD, BARE_EXCSAT, BARE_EXCSATRD, COMMITTED, EXCSAT,
    EXCSAT_ALONE, EXCSATRD, EXCSATRD_ALONE, NOT_ACCESSED, OUT_OF_TURN_2, OUT_OF_TURN_3,
    OUT_OF_TURN_4, RDBCMM, SECCHK, SECCHK_ALONE, SECCHKRM, SECCHKRM_ALONE,
};
