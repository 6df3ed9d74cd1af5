ghost use Rattle.std.specs.Prelude.{◌≡◌};
ghost use Rattle.dss_frames.specs.Format.{is_chained, continues_on_error, has_same_correlator, is_request, is_object, is_supported, is_paired, has_objects};

/// What a DSS is for.
#[derive(Clone, Copy, Debug, PartialEq, Eq)]
pub enum DssType {
    Request,
    Reply,
    Object,
}

/// The format byte of a DSS: 40 chained, 20 go on after an error, 10 the next DSS has the same
/// correlator; its low four bits are the type.
#[derive(Clone, Copy, Debug, PartialEq, Eq)]
pub struct Format {
    pub byte: u8,
}

impl Format {
    ghost use Rattle.dss_frames.specs.Parts.{dss_type_of};

    /// Another DSS of the same chain follows.
    pub fn is_chained(self) -> bool
        ensures { result ≡ is_chained self.byte }
    {
        self.byte & 0x40 != 0
    }

    /// The chain goes on after an error in this command.
    pub fn continues_on_error(self) -> bool
        ensures { result ≡ continues_on_error self.byte }
    {
        self.byte & 0x20 != 0
    }

    /// The next DSS has the same correlator.
    pub fn has_same_correlator(self) -> bool
        ensures { result ≡ has_same_correlator self.byte }
    {
        self.byte & 0x10 != 0
    }

    /// The type, where it is one of the three.
    pub fn dss_type(self) -> Option<DssType>
        ensures { result ≡ dss_type_of self.byte }
    {
        match self.byte & 0x0F {
            1 => Some(DssType::Request),
            2 => Some(DssType::Reply),
            3 => Some(DssType::Object),
            _ => None,
        }
    }

    pub(crate) fn is_supported(self) -> bool
        ensures { result ≡ is_supported self.byte }
    {
        self.byte & 0x80 == 0 && (self.byte & 0x0F == 1 || self.byte & 0x0F == 3)
    }

    pub(crate) fn is_paired(self) -> bool
        ensures { result ≡ is_paired self.byte }
    {
        self.is_chained() || !self.has_same_correlator()
    }

    pub(crate) fn has_objects(self) -> bool
        ensures { result ≡ has_objects self.byte }
    {
        self.is_chained() && self.has_same_correlator()
    }
}
