//! What each command reads.

ghost use Rattle.std.specs.Prelude.{◌≡◌};
ghost use Rattle.drda_commands.specs.Tables.{command_for, code_for, items_for};

use ddm_objects::code_point;

/// A command of the profile (DRDA V5 volume 3).
#[derive(Clone, Copy)]
pub enum Command {
    /// Exchange server attributes.
    Excsat,
    /// Access security: which mechanism is used.
    Accsec,
    /// Security check: who connects.
    Secchk,
    /// Access a relational database.
    Accrdb,
    /// Execute an SQL statement at once.
    Excsqlimm,
    /// Prepare an SQL statement for a section.
    Prpsqlstt,
    /// Describe a prepared statement.
    Dscsqlstt,
    /// Execute a prepared statement.
    Excsqlstt,
    /// Open a query.
    Opnqry,
    /// Continue a query.
    Cntqry,
    /// Close a query.
    Clsqry,
    /// Commit the unit of work.
    Rdbcmm,
    /// Roll back the unit of work.
    Rdbrllbck,
    /// Sync point control: a call of XA.
    Syncctl,
}

/// Where an item stands: among the parameters of the command object, or in an object DSS.
#[derive(Clone, Copy)]
pub enum ItemKind {
    Parameter,
    DataObject,
}

/// Which values an item may have (DRDA V5 volume 3, under the name of each).
#[derive(Clone, Copy)]
pub enum Form {
    /// MGRLVLLS: code points and levels, of two bytes each.
    ManagerLevels,
    /// Any bytes: a name is judged where it is used.
    AnyBytes,
    /// So many bytes, at least and at most: SECMEC, PKGNAMCSN, QRYINSID.
    Bytes { least: usize, greatest: usize },
    /// QRYBLKSZ: a number of four bytes, 512 to 10,485,760.
    BlockSize,
    /// BOOLEAN: F0 (false) or F1 (true), as RTNSQLDA.
    Boolean,
    /// TYPSQLDA: which SQLDA is described, 00 to 05.
    SqldaType,
    /// SYNCTYPE: the number of a call of XA.
    SyncType,
    /// TYPDEFNAM: the name QTDSQLASC.
    DefinitionName,
    /// TYPDEFOVR: a container in which CCSIDSBC and CCSIDMBC, where they stand, are 1208.
    DefinitionOverrides,
    /// SQLSTT, SQLATTR: a text of mixed and one of single-byte characters, each present or absent.
    StatementTexts,
    /// SQLDTA: a container of FDODSC and FDODTA, the description and the values of parameters.
    DescribedData,
}

/// A parameter or a data object that a command reads.
#[derive(Clone, Copy)]
pub struct Item {
    pub kind: ItemKind,
    pub code: u16,
    pub is_required: bool,
    pub form: Form,
}

/// The command of a code point; none where it is no command of the profile.
pub(crate) fn command_of(code: u16) -> Option<Command>
    ensures { result ≡ command_for code }
{
    match code {
        code_point::EXCSAT => Some(Command::Excsat),
        code_point::ACCSEC => Some(Command::Accsec),
        code_point::SECCHK => Some(Command::Secchk),
        code_point::ACCRDB => Some(Command::Accrdb),
        code_point::EXCSQLIMM => Some(Command::Excsqlimm),
        code_point::PRPSQLSTT => Some(Command::Prpsqlstt),
        code_point::DSCSQLSTT => Some(Command::Dscsqlstt),
        code_point::EXCSQLSTT => Some(Command::Excsqlstt),
        code_point::OPNQRY => Some(Command::Opnqry),
        code_point::CNTQRY => Some(Command::Cntqry),
        code_point::CLSQRY => Some(Command::Clsqry),
        code_point::RDBCMM => Some(Command::Rdbcmm),
        code_point::RDBRLLBCK => Some(Command::Rdbrllbck),
        code_point::SYNCCTL => Some(Command::Syncctl),
        _ => None,
    }
}

impl Command {
    /// Its code point.
    pub fn code(self) -> u16
        ensures { result ≡ code_for self }
    {
        match self {
            Command::Excsat => code_point::EXCSAT,
            Command::Accsec => code_point::ACCSEC,
            Command::Secchk => code_point::SECCHK,
            Command::Accrdb => code_point::ACCRDB,
            Command::Excsqlimm => code_point::EXCSQLIMM,
            Command::Prpsqlstt => code_point::PRPSQLSTT,
            Command::Dscsqlstt => code_point::DSCSQLSTT,
            Command::Excsqlstt => code_point::EXCSQLSTT,
            Command::Opnqry => code_point::OPNQRY,
            Command::Cntqry => code_point::CNTQRY,
            Command::Clsqry => code_point::CLSQRY,
            Command::Rdbcmm => code_point::RDBCMM,
            Command::Rdbrllbck => code_point::RDBRLLBCK,
            Command::Syncctl => code_point::SYNCCTL,
        }
    }
}

/// What a command reads, in the order in which values are judged.
pub(crate) fn items_of(command: Command) -> &'static [Item]
    ensures { result.now ≡ items_for command }
{
    match command {
        Command::Excsat => &EXCSAT_ITEMS,
        Command::Accsec => &ACCSEC_ITEMS,
        Command::Secchk => &SECCHK_ITEMS,
        Command::Accrdb => &ACCRDB_ITEMS,
        Command::Excsqlimm => &EXCSQLIMM_ITEMS,
        Command::Prpsqlstt => &PRPSQLSTT_ITEMS,
        Command::Dscsqlstt => &DSCSQLSTT_ITEMS,
        Command::Excsqlstt => &EXCSQLSTT_ITEMS,
        Command::Opnqry => &OPNQRY_ITEMS,
        Command::Cntqry => &CNTQRY_ITEMS,
        Command::Clsqry => &CLSQRY_ITEMS,
        Command::Syncctl => &SYNCCTL_ITEMS,
        Command::Rdbcmm | Command::Rdbrllbck => &ANY_ITEMS,
    }
}

macro_rules! item {
    ($kind:ident, $code:ident, $is_required:expr, $form:expr) => {
        Item {
            kind: ItemKind::$kind,
            code: code_point::$code,
            is_required: $is_required,
            form: $form,
        }
    };
}

const TWO_BYTES: Form = Form::Bytes {
    least: 2,
    greatest: 2,
};

const EIGHT_BYTES: Form = Form::Bytes {
    least: 8,
    greatest: 8,
};

const SECTION_NAME: Form = Form::Bytes {
    least: 64,
    greatest: 791,
};

const SECTION: Item = item!(Parameter, PKGNAMCSN, true, SECTION_NAME);

const DESCRIBED_SIDE: Item = item!(Parameter, TYPSQLDA, false, Form::SqldaType);

const QUERY_INSTANCE: Item = item!(Parameter, QRYINSID, false, EIGHT_BYTES);

const STATEMENT: Item = item!(DataObject, SQLSTT, true, Form::StatementTexts);

const DATA: Item = item!(DataObject, SQLDTA, false, Form::DescribedData);

const NAME_BEHIND: Item = item!(DataObject, TYPDEFNAM, false, Form::DefinitionName);

const OVERRIDES_BEHIND: Item = item!(DataObject, TYPDEFOVR, false, Form::DefinitionOverrides);

static EXCSAT_ITEMS: [Item; 3] = [
    item!(Parameter, MGRLVLLS, false, Form::ManagerLevels),
    NAME_BEHIND,
    OVERRIDES_BEHIND,
];

static ACCSEC_ITEMS: [Item; 4] = [
    item!(Parameter, SECMEC, true, TWO_BYTES),
    item!(Parameter, RDBNAM, false, Form::AnyBytes),
    NAME_BEHIND,
    OVERRIDES_BEHIND,
];

static SECCHK_ITEMS: [Item; 5] = [
    item!(Parameter, SECMEC, true, TWO_BYTES),
    item!(Parameter, USRID, false, Form::AnyBytes),
    item!(Parameter, PASSWORD, false, Form::AnyBytes),
    NAME_BEHIND,
    OVERRIDES_BEHIND,
];

static ACCRDB_ITEMS: [Item; 5] = [
    item!(Parameter, RDBNAM, true, Form::AnyBytes),
    item!(Parameter, TYPDEFNAM, true, Form::DefinitionName),
    item!(Parameter, TYPDEFOVR, false, Form::DefinitionOverrides),
    NAME_BEHIND,
    OVERRIDES_BEHIND,
];

static EXCSQLIMM_ITEMS: [Item; 3] = [STATEMENT, NAME_BEHIND, OVERRIDES_BEHIND];

static PRPSQLSTT_ITEMS: [Item; 7] = [
    SECTION,
    item!(Parameter, RTNSQLDA, false, Form::Boolean),
    DESCRIBED_SIDE,
    STATEMENT,
    item!(DataObject, SQLATTR, false, Form::StatementTexts),
    NAME_BEHIND,
    OVERRIDES_BEHIND,
];

static DSCSQLSTT_ITEMS: [Item; 4] = [SECTION, DESCRIBED_SIDE, NAME_BEHIND, OVERRIDES_BEHIND];

static EXCSQLSTT_ITEMS: [Item; 4] = [SECTION, DATA, NAME_BEHIND, OVERRIDES_BEHIND];

static OPNQRY_ITEMS: [Item; 5] = [
    SECTION,
    item!(Parameter, QRYBLKSZ, true, Form::BlockSize),
    DATA,
    NAME_BEHIND,
    OVERRIDES_BEHIND,
];

static CNTQRY_ITEMS: [Item; 5] = [
    SECTION,
    item!(Parameter, QRYBLKSZ, false, Form::BlockSize),
    QUERY_INSTANCE,
    NAME_BEHIND,
    OVERRIDES_BEHIND,
];

static CLSQRY_ITEMS: [Item; 4] = [SECTION, QUERY_INSTANCE, NAME_BEHIND, OVERRIDES_BEHIND];

static SYNCCTL_ITEMS: [Item; 5] = [
    item!(Parameter, SYNCTYPE, true, Form::SyncType),
    item!(Parameter, XID, false, Form::AnyBytes),
    item!(Parameter, XAFLAGS, false, Form::AnyBytes),
    NAME_BEHIND,
    OVERRIDES_BEHIND,
];

static ANY_ITEMS: [Item; 2] = [NAME_BEHIND, OVERRIDES_BEHIND];
