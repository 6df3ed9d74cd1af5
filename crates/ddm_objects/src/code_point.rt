//! The code points of the commands, parameters, data objects, managers and replies that are used
//! here, under the names of the standard (DRDA V5 volume 3, DDM).

ghost use Rattle.std.specs.Prelude.{◌≡◌, ◌<◌, Some, option_map};
ghost use Rattle.ddm_objects.specs.Names.{digit, four_digits, message_of, name_of, object_of, shown};

use std::fmt;

// Commands.

/// Exchange server attributes.
pub const EXCSAT: u16 = 0x1041;

/// Access security.
pub const ACCSEC: u16 = 0x106D;

/// Security check.
pub const SECCHK: u16 = 0x106E;

/// Sync point control.
pub const SYNCCTL: u16 = 0x1055;

/// Access RDB.
pub const ACCRDB: u16 = 0x2001;

/// Close query.
pub const CLSQRY: u16 = 0x2005;

/// Continue query.
pub const CNTQRY: u16 = 0x2006;

/// Describe SQL statement.
pub const DSCSQLSTT: u16 = 0x2008;

/// Execute immediate SQL statement.
pub const EXCSQLIMM: u16 = 0x200A;

/// Execute SQL statement.
pub const EXCSQLSTT: u16 = 0x200B;

/// Open query.
pub const OPNQRY: u16 = 0x200C;

/// Prepare SQL statement.
pub const PRPSQLSTT: u16 = 0x200D;

/// RDB commit unit of work.
pub const RDBCMM: u16 = 0x200E;

/// RDB rollback unit of work.
pub const RDBRLLBCK: u16 = 0x200F;

// Parameters.

/// Code point.
pub const CODPNT: u16 = 0x000C;

/// Data type definition name.
pub const TYPDEFNAM: u16 = 0x002F;

/// TYPDEF overrides.
pub const TYPDEFOVR: u16 = 0x0035;

/// Product-specific identifier.
pub const PRDID: u16 = 0x112E;

/// Server class name.
pub const SRVCLSNM: u16 = 0x1147;

/// Severity code.
pub const SVRCOD: u16 = 0x1149;

/// Syntax error code.
pub const SYNERRCD: u16 = 0x114A;

/// Server product release level.
pub const SRVRLSLV: u16 = 0x115A;

/// External name.
pub const EXTNAM: u16 = 0x115E;

/// Server name.
pub const SRVNAM: u16 = 0x116D;

/// Sync point operation type.
pub const SYNCTYPE: u16 = 0x1187;

/// CCSID for single-byte characters.
pub const CCSIDSBC: u16 = 0x119C;

/// CCSID for double-byte characters.
pub const CCSIDDBC: u16 = 0x119D;

/// CCSID for mixed-byte characters.
pub const CCSIDMBC: u16 = 0x119E;

/// User ID at the target system.
pub const USRID: u16 = 0x11A0;

/// Password.
pub const PASSWORD: u16 = 0x11A1;

/// Security mechanism.
pub const SECMEC: u16 = 0x11A2;

/// Security check code.
pub const SECCHKCD: u16 = 0x11A4;

/// Manager-level list.
pub const MGRLVLLS: u16 = 0x1404;

/// Global transaction identifier.
pub const XID: u16 = 0x1801;

/// XA flags.
pub const XAFLAGS: u16 = 0x1903;

/// XA return value.
pub const XARETVAL: u16 = 0x1904;

/// Prepared and heuristically completed list.
pub const PRPHRCLST: u16 = 0x1905;

/// XID count.
pub const XIDCNT: u16 = 0x1906;

/// Transaction timeout.
pub const TIMEOUT: u16 = 0x1907;

/// Query protocol type.
pub const QRYPRCTYP: u16 = 0x2102;

/// RDB access manager class.
pub const RDBACCCL: u16 = 0x210F;

/// Relational database name.
pub const RDBNAM: u16 = 0x2110;

/// RDB package name, consistency token and section number.
pub const PKGNAMCSN: u16 = 0x2113;

/// Query block size.
pub const QRYBLKSZ: u16 = 0x2114;

/// Unit of work disposition.
pub const UOWDSP: u16 = 0x2115;

/// Return SQL descriptor area.
pub const RTNSQLDA: u16 = 0x2116;

/// Hold cursor position.
pub const SQLCSRHLD: u16 = 0x211F;

/// Type of SQL descriptor area.
pub const TYPSQLDA: u16 = 0x2146;

/// Query instance identifier.
pub const QRYINSID: u16 = 0x215B;

/// Limited block protocol.
pub const LMTBLKPRC: u16 = 0x2417;

// Data objects.

/// FD:OCA data descriptor.
pub const FDODSC: u16 = 0x0010;

/// FD:OCA data.
pub const FDODTA: u16 = 0x147A;

/// SQL communications area reply data.
pub const SQLCARD: u16 = 0x2408;

/// SQLDA reply data.
pub const SQLDARD: u16 = 0x2411;

/// SQL program variable data.
pub const SQLDTA: u16 = 0x2412;

/// SQL statement.
pub const SQLSTT: u16 = 0x2414;

/// Query answer set description.
pub const QRYDSC: u16 = 0x241A;

/// Query answer set data.
pub const QRYDTA: u16 = 0x241B;

/// SQL statement attributes.
pub const SQLATTR: u16 = 0x2450;

// Managers.

/// Agent.
pub const AGENT: u16 = 0x1403;

/// SQL application manager.
pub const SQLAM: u16 = 0x2407;

/// Relational database.
pub const RDB: u16 = 0x240F;

/// Security manager.
pub const SECMGR: u16 = 0x1440;

/// TCP/IP communication manager.
pub const CMNTCPIP: u16 = 0x1474;

/// Sync point manager.
pub const SYNCPTMGR: u16 = 0x14C0;

/// Resynchronization manager.
pub const RSYNCMGR: u16 = 0x14C1;

/// XA manager.
pub const XAMGR: u16 = 0x1C01;

/// Unicode manager.
pub const UNICODEMGR: u16 = 0x1C08;

// Replies.

/// Manager dependency error.
pub const MGRDEPRM: u16 = 0x1218;

/// Security check.
pub const SECCHKRM: u16 = 0x1219;

/// Permanent agent error.
pub const AGNPRMRM: u16 = 0x1232;

/// Resource limits reached.
pub const RSCLMTRM: u16 = 0x1233;

/// Conversational protocol error.
pub const PRCCNVRM: u16 = 0x1245;

/// Sync point control reply data.
pub const SYNCCRD: u16 = 0x1248;

/// Data stream syntax error.
pub const SYNTAXRM: u16 = 0x124C;

/// Command not supported.
pub const CMDNSPRM: u16 = 0x1250;

/// Parameter value not supported.
pub const VALNSPRM: u16 = 0x1252;

/// Server attributes reply data.
pub const EXCSATRD: u16 = 0x1443;

/// Access security reply data.
pub const ACCSECRD: u16 = 0x14AC;

/// Access to RDB completed.
pub const ACCRDBRM: u16 = 0x2201;

/// Query not open.
pub const QRYNOPRM: u16 = 0x2202;

/// RDB not accessed.
pub const RDBNACRM: u16 = 0x2204;

/// Open query complete.
pub const OPNQRYRM: u16 = 0x2205;

/// RDB currently accessed.
pub const RDBACCRM: u16 = 0x2207;

/// End of query.
pub const ENDQRYRM: u16 = 0x220B;

/// End unit of work condition.
pub const ENDUOWRM: u16 = 0x220C;

/// Query previously opened.
pub const QRYPOPRM: u16 = 0x220F;

/// RDB not found.
pub const RDBNFNRM: u16 = 0x2211;

/// Open query failure.
pub const OPNQFLRM: u16 = 0x2212;

/// RDB update.
pub const RDBUPDRM: u16 = 0x2218;

/// Command violation.
pub const CMDVLTRM: u16 = 0x221D;

/// A code point, shown as its name and four hexadecimal digits, as `EXCSAT 1041`; one that is not
/// of this list is shown as its digits alone.
#[derive(Clone, Copy, Debug, PartialEq, Eq)]
pub struct CodePoint(pub u16);

impl fmt::Display for CodePoint {
    ghost output = { λ code. Some (shown code.0) };

    fn fmt<W: fmt::Write>(&self, f: &mut fmt::Formatter<W>) -> fmt::Result {
        let digits = digits(self.0);
        let digits = str::from_utf8(&digits).map_err(|_| fmt::Error)?;
        match name(self.0) {
            Some(name) => write!(f, "{name} {digits}"),
            None => f.write_str(digits),
        }
    }
}

/// The hexadecimal digit of a number below 16, in ASCII.
fn digit(value: u16) -> u8
    requires { value < 16 }
    ensures { result ≡ digit value }
{
    if value < 10 {
        b'0' + value as u8
    } else {
        b'A' + (value - 10) as u8
    }
}

/// Four hexadecimal digits, in ASCII.
#[tactic(auto, unfolding(crate::specs::Names::four_digits))]
fn digits(code: u16) -> [u8; 4]
    ensures { result ≡ four_digits code }
{
    [
        digit(code / 0x1000),
        digit(code / 0x100 % 0x10),
        digit(code / 0x10 % 0x10),
        digit(code % 0x10),
    ]
}

/// The standard's name of a code point.
fn name(code: u16) -> Option<&'static str>
    ensures { option_map (λ name. name.now) result ≡ name_of code }
{
    message_name(code).or(object_name(code))
}

/// The name of a command or a reply.
#[tactic(auto, unfolding(crate::specs::Names::message_of))]
fn message_name(code: u16) -> Option<&'static str>
    ensures { option_map (λ name. name.now) result ≡ message_of code }
{
    match code {
        EXCSAT => Some("EXCSAT"),
        ACCSEC => Some("ACCSEC"),
        SECCHK => Some("SECCHK"),
        SYNCCTL => Some("SYNCCTL"),
        ACCRDB => Some("ACCRDB"),
        CLSQRY => Some("CLSQRY"),
        CNTQRY => Some("CNTQRY"),
        DSCSQLSTT => Some("DSCSQLSTT"),
        EXCSQLIMM => Some("EXCSQLIMM"),
        EXCSQLSTT => Some("EXCSQLSTT"),
        OPNQRY => Some("OPNQRY"),
        PRPSQLSTT => Some("PRPSQLSTT"),
        RDBCMM => Some("RDBCMM"),
        RDBRLLBCK => Some("RDBRLLBCK"),
        MGRDEPRM => Some("MGRDEPRM"),
        SECCHKRM => Some("SECCHKRM"),
        AGNPRMRM => Some("AGNPRMRM"),
        RSCLMTRM => Some("RSCLMTRM"),
        PRCCNVRM => Some("PRCCNVRM"),
        SYNCCRD => Some("SYNCCRD"),
        SYNTAXRM => Some("SYNTAXRM"),
        CMDNSPRM => Some("CMDNSPRM"),
        VALNSPRM => Some("VALNSPRM"),
        EXCSATRD => Some("EXCSATRD"),
        ACCSECRD => Some("ACCSECRD"),
        ACCRDBRM => Some("ACCRDBRM"),
        QRYNOPRM => Some("QRYNOPRM"),
        RDBNACRM => Some("RDBNACRM"),
        OPNQRYRM => Some("OPNQRYRM"),
        RDBACCRM => Some("RDBACCRM"),
        ENDQRYRM => Some("ENDQRYRM"),
        ENDUOWRM => Some("ENDUOWRM"),
        QRYPOPRM => Some("QRYPOPRM"),
        RDBNFNRM => Some("RDBNFNRM"),
        OPNQFLRM => Some("OPNQFLRM"),
        RDBUPDRM => Some("RDBUPDRM"),
        CMDVLTRM => Some("CMDVLTRM"),
        _ => None,
    }
}

/// The name of a parameter, a data object or a manager.
#[tactic(auto, unfolding(crate::specs::Names::object_of))]
fn object_name(code: u16) -> Option<&'static str>
    ensures { option_map (λ name. name.now) result ≡ object_of code }
{
    match code {
        CODPNT => Some("CODPNT"),
        TYPDEFNAM => Some("TYPDEFNAM"),
        TYPDEFOVR => Some("TYPDEFOVR"),
        PRDID => Some("PRDID"),
        SRVCLSNM => Some("SRVCLSNM"),
        SVRCOD => Some("SVRCOD"),
        SYNERRCD => Some("SYNERRCD"),
        SRVRLSLV => Some("SRVRLSLV"),
        EXTNAM => Some("EXTNAM"),
        SRVNAM => Some("SRVNAM"),
        SYNCTYPE => Some("SYNCTYPE"),
        CCSIDSBC => Some("CCSIDSBC"),
        CCSIDDBC => Some("CCSIDDBC"),
        CCSIDMBC => Some("CCSIDMBC"),
        USRID => Some("USRID"),
        PASSWORD => Some("PASSWORD"),
        SECMEC => Some("SECMEC"),
        SECCHKCD => Some("SECCHKCD"),
        MGRLVLLS => Some("MGRLVLLS"),
        XID => Some("XID"),
        XAFLAGS => Some("XAFLAGS"),
        XARETVAL => Some("XARETVAL"),
        PRPHRCLST => Some("PRPHRCLST"),
        XIDCNT => Some("XIDCNT"),
        TIMEOUT => Some("TIMEOUT"),
        QRYPRCTYP => Some("QRYPRCTYP"),
        RDBACCCL => Some("RDBACCCL"),
        RDBNAM => Some("RDBNAM"),
        PKGNAMCSN => Some("PKGNAMCSN"),
        QRYBLKSZ => Some("QRYBLKSZ"),
        UOWDSP => Some("UOWDSP"),
        RTNSQLDA => Some("RTNSQLDA"),
        SQLCSRHLD => Some("SQLCSRHLD"),
        TYPSQLDA => Some("TYPSQLDA"),
        QRYINSID => Some("QRYINSID"),
        LMTBLKPRC => Some("LMTBLKPRC"),
        FDODSC => Some("FDODSC"),
        FDODTA => Some("FDODTA"),
        SQLCARD => Some("SQLCARD"),
        SQLDARD => Some("SQLDARD"),
        SQLDTA => Some("SQLDTA"),
        SQLSTT => Some("SQLSTT"),
        QRYDSC => Some("QRYDSC"),
        QRYDTA => Some("QRYDTA"),
        SQLATTR => Some("SQLATTR"),
        AGENT => Some("AGENT"),
        SQLAM => Some("SQLAM"),
        RDB => Some("RDB"),
        SECMGR => Some("SECMGR"),
        CMNTCPIP => Some("CMNTCPIP"),
        SYNCPTMGR => Some("SYNCPTMGR"),
        RSYNCMGR => Some("RSYNCMGR"),
        XAMGR => Some("XAMGR"),
        UNICODEMGR => Some("UNICODEMGR"),
        _ => None,
    }
}
