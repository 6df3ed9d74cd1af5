//! What a server is started with.

use drda_names::push_padded;
use std::alloc::{AllocError, Global};
use std::marker::Model;
use thiserror::Error;

/// The most bytes of a database's name (RDBNAM).
const MAX_RDB_NAME_BYTES: usize = 18;

/// Why there are no settings.
#[derive(Debug, Drop, PartialEq, Eq, Error)]
pub enum SettingsError {
    /// The database's name is not 1 to 18 printable ASCII characters without blanks.
    #[error("the name of a database has 1 to 18 printable characters")]
    BadName,
    /// Memory was refused.
    #[error("no memory")]
    NoMemory,
}

impl From<AllocError> for SettingsError {
    ghost use Rattle.std.specs.Prelude.{◌≡◌};
    ghost use Rattle.session_commands.specs.declared.settings.SettingsError.TheVariants.{NoMemory};

    ghost from_gives = { λ _ error. error ≡ NoMemory };

    fn from(_error: AllocError) -> SettingsError {
        SettingsError::NoMemory
    }
}

/// The one user that may connect, that user's password, and the name of the database (RDB), also as it is answered.
#[derive(Drop)]
pub struct Settings {
    user: String,
    password: String,
    rdb: String,
    in_utf_8: Vec<u8>,
    in_code_page_500: Vec<u8>,
}

impl Model for Settings {
    ghost use Rattle.std.specs.Prelude.{◌≡◌, string_bytes, IsTrue, false, true};
    ghost use Rattle.drda_names.specs.Names.{padded_in};
    ghost use Rattle.session_commands.specs.Settings as model;
    ghost use Rattle.session_commands.specs.Settings.{is_rdb_name};

    ghost Value = { model.Settings };

    ghost view = { λ s. record { user = string_bytes s.user; password = string_bytes s.password; rdb = string_bytes s.rdb } };

    ghost invariant = { λ s. IsTrue (is_rdb_name (string_bytes s.rdb))
        × (s.in_utf_8.items ≡ padded_in true (string_bytes s.rdb))
        × (s.in_code_page_500.items ≡ padded_in false (string_bytes s.rdb)) };
}

fn are_printable(bytes: &[u8]) -> bool
    ensures { result ≡ list_all is_printable bytes.now }
{
    bytes.iter().all(|b| 0x21 <= *b && *b <= 0x7E)
}

fn is_rdb_name(name: &str) -> bool
    ensures { result ≡ is_rdb_name name.now }
{
    1 <= name.len() && name.len() <= MAX_RDB_NAME_BYTES && are_printable(name.as_bytes())
}

// A database's name as it is answered.
fn padded(alloc: Global, unicode: bool, name: &[u8]) -> Result<Vec<u8>, AllocError>
    ensures { IfOk result (λ v. v.items ≡ padded_in unicode name.now) }
{
    let mut answered = Vec::new(alloc);
    push_padded(&mut answered, unicode, name)?;
    Ok(answered)
}

ghost use Rattle.std.specs.Prelude.{◌≡◌, ◌≤◌, IfOk, length};
ghost use Rattle.std.specs.List.{list_all};
ghost use Rattle.drda_names.specs.Names.{padded_in};
ghost use Rattle.session_commands.specs.Settings.{is_printable, is_rdb_name};

impl Settings {
    ghost use Rattle.std.specs.Prelude.{◌↔◌, IfOk, false, Err};
    ghost use Rattle.session_commands.specs.declared.settings.SettingsError.TheVariants.{BadName};

    /// Settings with copies of these texts. BadName exactly where `rdb` is not 1 to 18 printable ASCII
    /// characters without blanks.
    pub fn new(
        alloc: Global,
        user: &str,
        password: &str,
        rdb: &str,
    ) -> Result<Settings, SettingsError>
        ensures ok { IfOk result (λ s. s ≡ record { user = user.now; password = password.now; rdb = rdb.now }) }
        ensures bad_name { (result ≡ Err BadName) ↔ (is_rdb_name rdb.now ≡ false) }
    {
        if !is_rdb_name(rdb) {
            return Err(SettingsError::BadName);
        }
        Ok(Settings {
            user: String::from_str(alloc, user)?,
            password: String::from_str(alloc, password)?,
            rdb: String::from_str(alloc, rdb)?,
            in_utf_8: padded(alloc, true, rdb.as_bytes())?,
            in_code_page_500: padded(alloc, false, rdb.as_bytes())?,
        })
    }

    /// The one user's name, in ASCII or whatever it was given in.
    pub(crate) fn user(&self) -> &[u8]
        ensures { result.now ≡ self.now.user }
    {
        self.user.as_bytes()
    }

    /// The password.
    pub(crate) fn password(&self) -> &[u8]
        ensures { result.now ≡ self.now.password }
    {
        self.password.as_bytes()
    }

    /// The database's name: 1 to 18 printable ASCII characters without blanks.
    pub fn rdb(&self) -> &[u8]
        ensures name { result.now ≡ self.now.rdb }
        ensures short { length result.now ≤ 18 }
    {
        self.rdb.as_bytes()
    }

    /// The database's name as it is answered: in UTF-8 with `unicode`, else in code page 500, with blanks behind it up
    /// to 18 bytes.
    pub fn database_name(&self, unicode: bool) -> &[u8]
        ensures name { result.now ≡ padded_in unicode self.now.rdb }
        ensures whole { length result.now ≡ 18 }
    {
        if unicode {
            self.in_utf_8.as_slice()
        } else {
            self.in_code_page_500.as_slice()
        }
    }

    /// A copy, or AllocError where memory is refused.
    pub fn copy(&self, alloc: Global) -> Result<Settings, AllocError>
        ensures { IfOk result (λ s. s ≡ self.now) }
    {
        Ok(Settings {
            user: String::from_str(alloc, self.user.as_str())?,
            password: String::from_str(alloc, self.password.as_str())?,
            rdb: String::from_str(alloc, self.rdb.as_str())?,
            in_utf_8: padded(alloc, true, self.rdb.as_bytes())?,
            in_code_page_500: padded(alloc, false, self.rdb.as_bytes())?,
        })
    }
}
