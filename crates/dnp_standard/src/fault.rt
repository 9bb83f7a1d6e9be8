//! Why octets are no object header with its objects.

ghost use Rattle.std.specs.Prelude.{◌≡◌};
ghost use Rattle.dnp_standard.specs.Headers as spec;

/// Why octets are no object header with its objects (IEEE Std 1815-2012, application layer: object headers).
#[derive(Clone, Copy)]
pub enum Fault {
    /// They end in the header.
    HeaderCut,
    /// The standard has no such object.
    ObjectUnknown,
    /// The standard has no such qualifier.
    QualifierUnknown,
    /// The last object is before the first.
    RangeBackward,
    /// The objects have no fixed size, and none is said.
    SizeUnknown,
    /// They end in the objects.
    ObjectsCut,
}

impl Fault {
    /// What it is called.
    pub fn name(self) -> &'static str
        ensures { result.now ≡ spec.fault_name self }
    {
        match self {
            Fault::HeaderCut => "HeaderCut",
            Fault::ObjectUnknown => "ObjectUnknown",
            Fault::QualifierUnknown => "QualifierUnknown",
            Fault::RangeBackward => "RangeBackward",
            Fault::SizeUnknown => "SizeUnknown",
            Fault::ObjectsCut => "ObjectsCut",
        }
    }
}
