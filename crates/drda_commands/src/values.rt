//! What an accepted command brings, item by item.

ghost use Rattle.std.specs.Prelude.{◌≡◌, option_copied};
ghost use Rattle.std.specs.Option.{option_map};
ghost use Rattle.drda_commands.specs.Values as spec;
ghost use Rattle.drda_commands.specs.Values.{number4, number8};
ghost use Rattle.drda_commands.specs.Views.{given_of, described_of};

use crate::given::found_in;
use crate::judging::Accepted;
use crate::table::ItemKind;
use crate::texts::text_in;
use ddm_objects::code_point;

/// What an SQLDA describes.
#[derive(Clone, Copy)]
pub enum DescribedSide {
    /// The columns that a statement answers.
    Columns,
    /// The parameters that a statement takes.
    Parameters,
}

/// The parts of an SQLDTA (DRDA V5 volume 2), each where it stands there.
#[derive(Clone, Copy)]
pub struct DescribedData<'a> {
    /// The data of FDODSC.
    pub description: Option<&'a [u8]>,
    /// The data of FDODTA.
    pub values: Option<&'a [u8]>,
}

fn is_true(value: Option<&[u8]>) -> bool
    ensures { result ≡ spec.is_true (option_copied value.entry) }
{
    match value {
        Some([byte]) => *byte == 0xF1,
        _ => false,
    }
}

fn side_of(value: Option<&[u8]>) -> DescribedSide
    ensures { result ≡ spec.side_of (option_copied value.entry) }
{
    match value {
        Some([byte]) if *byte % 2 == 1 => DescribedSide::Parameters,
        _ => DescribedSide::Columns,
    }
}

pub(crate) fn number4(value: &[u8]) -> Option<u32>
    ensures { result ≡ number4 value.now }
{
    let [a, b, c, d] = value else {
        return None;
    };
    Some(u32::from_be_bytes([*a, *b, *c, *d]))
}

fn number8(value: &[u8]) -> Option<u64>
    ensures { result ≡ number8 value.now }
{
    let [a, b, c, d, e, f, g, h] = value else {
        return None;
    };
    Some(u64::from_be_bytes([*a, *b, *c, *d, *e, *f, *g, *h]))
}

impl<'a> Accepted<'a> {
    /// The data of a parameter or data object that came once, as they came.
    pub fn brought(&self, kind: ItemKind, code: u16) -> Option<&'a [u8]>
        ensures { option_copied result ≡ spec.brought kind code (given_of self.now.given) }
    {
        self.given.found(kind, code).value()
    }

    /// The name of a section, PKGNAMCSN, as it came.
    pub fn section(&self) -> Option<&'a [u8]>
        ensures { option_copied result ≡ spec.section_in (given_of self.now.given) }
    {
        self.brought(ItemKind::Parameter, code_point::PKGNAMCSN)
    }

    /// The text of SQLSTT: of its two the first one that is present.
    pub fn statement(&self) -> Option<&'a [u8]>
        ensures { option_copied result ≡ spec.statement_in (given_of self.now.given) }
    {
        match self.brought(ItemKind::DataObject, code_point::SQLSTT) {
            Some(value) => text_in(value),
            None => None,
        }
    }

    /// The text of SQLATTR: of its two the first one that is present.
    pub fn attributes(&self) -> Option<&'a [u8]>
        ensures { option_copied result ≡ spec.attributes_in (given_of self.now.given) }
    {
        match self.brought(ItemKind::DataObject, code_point::SQLATTR) {
            Some(value) => text_in(value),
            None => None,
        }
    }

    /// RTNSQLDA: whether a description of the statement is wanted; not, where it does not come.
    pub fn wants_description(&self) -> bool
        ensures { result ≡ spec.wants_description (given_of self.now.given) }
    {
        is_true(self.brought(ItemKind::Parameter, code_point::RTNSQLDA))
    }

    /// TYPSQLDA: which side is described; the columns, where it does not come.
    pub fn side(&self) -> DescribedSide
        ensures { result ≡ spec.side_in (given_of self.now.given) }
    {
        side_of(self.brought(ItemKind::Parameter, code_point::TYPSQLDA))
    }

    /// QRYBLKSZ: how many bytes of rows a block may have.
    pub fn block_size(&self) -> Option<u32>
        ensures { result ≡ spec.block_size_in (given_of self.now.given) }
    {
        match self.brought(ItemKind::Parameter, code_point::QRYBLKSZ) {
            Some(value) => number4(value),
            None => None,
        }
    }

    /// QRYINSID: which opening of a query is meant.
    pub fn query_instance(&self) -> Option<u64>
        ensures { result ≡ spec.query_instance_in (given_of self.now.given) }
    {
        match self.brought(ItemKind::Parameter, code_point::QRYINSID) {
            Some(value) => number8(value),
            None => None,
        }
    }

    /// The number of SYNCTYPE.
    pub fn sync_type(&self) -> Option<u8>
        ensures { result ≡ spec.sync_type_in (given_of self.now.given) }
    {
        match self.brought(ItemKind::Parameter, code_point::SYNCTYPE) {
            Some([number]) => Some(*number),
            _ => None,
        }
    }

    /// The description and the values of parameters in SQLDTA; none where no SQLDTA comes.
    pub fn described_data(&self) -> Option<DescribedData<'a>>
        ensures { option_map described_of result ≡ spec.described_data_in (given_of self.now.given) }
    {
        match self.brought(ItemKind::DataObject, code_point::SQLDTA) {
            Some(value) => Some(DescribedData {
                description: found_in(code_point::FDODSC, value).value(),
                values: found_in(code_point::FDODTA, value).value(),
            }),
            None => None,
        }
    }
}
