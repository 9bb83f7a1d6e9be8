//! The objects by group and variation: what each is, and how many octets it has.

ghost use Rattle.std.specs.Prelude.{◌≡◌};
ghost use Rattle.dnp_standard.specs.Objects as spec;

use crate::kind::Kind;

/// How much of a fragment an object takes.
#[derive(Clone, Copy)]
pub enum Size {
    /// A bit: objects are packed, the first in the lowest bit of the first octet.
    Bit,
    /// Two bits, packed likewise.
    BitPair,
    /// So many octets.
    Octets(u8),
    /// As many octets as it says itself, or as are said before it.
    Varying,
}

/// An object of the library (IEEE Std 1815-2012, annex A).
#[derive(Clone, Copy)]
pub struct Object {
    /// The group.
    pub group: u8,
    /// The variation. 0 is of any.
    pub variation: u8,
    /// What it is.
    pub kind: Kind,
    /// How much it takes.
    pub size: Size,
}

/// An object of this group and variation.
macro_rules! object {
    ($group:literal, $variation:literal, $kind:ident, $size:expr) => {
        Object { group: $group, variation: $variation, kind: Kind::$kind, size: $size }
    };
}

/// All objects but octet strings and the terminal's, whose variation is their size.
static OBJECTS: [Object; 262] = [
    object!(0, 196, ConfigurationId, Size::Varying),
    object!(0, 197, ConfigurationVersion, Size::Varying),
    object!(0, 198, ConfigurationBuildDate, Size::Varying),
    object!(0, 199, ConfigurationLastChangeDate, Size::Varying),
    object!(0, 200, ConfigurationSignature, Size::Varying),
    object!(0, 201, ConfigurationSignatureAlgorithm, Size::Varying),
    object!(0, 202, MasterResourceId, Size::Varying),
    object!(0, 203, AltitudeOfTheDevice, Size::Varying),
    object!(0, 204, LongitudeOfTheDevice, Size::Varying),
    object!(0, 205, LatitudeOfTheDevice, Size::Varying),
    object!(0, 206, SecondaryOperatorName, Size::Varying),
    object!(0, 207, PrimaryOperatorName, Size::Varying),
    object!(0, 208, SystemName, Size::Varying),
    object!(0, 209, SecureAuthenticationVersion, Size::Varying),
    object!(
        0,
        210,
        NumberOfSecurityStatisticsPerAssociation,
        Size::Varying
    ),
    object!(0, 211, UserSpecificAttributes, Size::Varying),
    object!(
        0,
        212,
        NumberOfMasterDefinedDataSetPrototypes,
        Size::Varying
    ),
    object!(
        0,
        213,
        NumberOfOutstationDefinedDataSetPrototypes,
        Size::Varying
    ),
    object!(0, 214, NumberOfMasterDefinedDataSets, Size::Varying),
    object!(0, 215, NumberOfOutstationDefinedDataSets, Size::Varying),
    object!(
        0,
        216,
        MaximumNumberOfBinaryOutputsPerRequest,
        Size::Varying
    ),
    object!(0, 217, LocalTimingAccuracy, Size::Varying),
    object!(0, 218, DurationOfTimeAccuracy, Size::Varying),
    object!(0, 219, SupportForAnalogOutputEvents, Size::Varying),
    object!(0, 220, MaximumAnalogOutputIndex, Size::Varying),
    object!(0, 221, NumberOfAnalogOutputs, Size::Varying),
    object!(0, 222, SupportForBinaryOutputEvents, Size::Varying),
    object!(0, 223, MaximumBinaryOutputIndex, Size::Varying),
    object!(0, 224, NumberOfBinaryOutputs, Size::Varying),
    object!(0, 225, SupportForFrozenCounterEvents, Size::Varying),
    object!(0, 226, SupportForFrozenCounters, Size::Varying),
    object!(0, 227, SupportForCounterEvents, Size::Varying),
    object!(0, 228, MaximumCounterIndex, Size::Varying),
    object!(0, 229, NumberOfCounters, Size::Varying),
    object!(0, 230, SupportForFrozenAnalogInputs, Size::Varying),
    object!(0, 231, SupportForAnalogInputEvents, Size::Varying),
    object!(0, 232, MaximumAnalogInputIndex, Size::Varying),
    object!(0, 233, NumberOfAnalogInputs, Size::Varying),
    object!(0, 234, SupportForDoubleBitBinaryInputEvents, Size::Varying),
    object!(0, 235, MaximumDoubleBitBinaryInputIndex, Size::Varying),
    object!(0, 236, NumberOfDoubleBitBinaryInputs, Size::Varying),
    object!(0, 237, SupportForBinaryInputEvents, Size::Varying),
    object!(0, 238, MaximumBinaryInputIndex, Size::Varying),
    object!(0, 239, NumberOfBinaryInputs, Size::Varying),
    object!(0, 240, MaximumTransmitFragmentSize, Size::Varying),
    object!(0, 241, MaximumReceiveFragmentSize, Size::Varying),
    object!(0, 242, SoftwareVersion, Size::Varying),
    object!(0, 243, HardwareVersion, Size::Varying),
    object!(0, 244, OwnerName, Size::Varying),
    object!(0, 245, LocationName, Size::Varying),
    object!(0, 246, IdCodeOrNumber, Size::Varying),
    object!(0, 247, DeviceName, Size::Varying),
    object!(0, 248, SerialNumber, Size::Varying),
    object!(0, 249, SubsetAndConformance, Size::Varying),
    object!(0, 250, ProductNameAndModel, Size::Varying),
    object!(0, 252, ManufacturersName, Size::Varying),
    object!(0, 254, AllAttributes, Size::Varying),
    object!(0, 255, ListOfAttributeVariations, Size::Varying),
    object!(1, 0, AnyVariation, Size::Varying),
    object!(1, 1, PackedFormat, Size::Bit),
    object!(1, 2, WithFlags, Size::Octets(1)),
    object!(2, 0, AnyVariation, Size::Varying),
    object!(2, 1, WithoutTime, Size::Octets(1)),
    object!(2, 2, WithAbsoluteTime, Size::Octets(7)),
    object!(2, 3, WithRelativeTime, Size::Octets(3)),
    object!(3, 0, AnyVariation, Size::Varying),
    object!(3, 1, PackedFormat, Size::BitPair),
    object!(3, 2, WithFlags, Size::Octets(1)),
    object!(4, 0, AnyVariation, Size::Varying),
    object!(4, 1, WithoutTime, Size::Octets(1)),
    object!(4, 2, WithAbsoluteTime, Size::Octets(7)),
    object!(4, 3, WithRelativeTime, Size::Octets(3)),
    object!(10, 0, AnyVariation, Size::Varying),
    object!(10, 1, PackedFormat, Size::Bit),
    object!(10, 2, OutputStatusWithFlags, Size::Octets(1)),
    object!(11, 0, AnyVariation, Size::Varying),
    object!(11, 1, StatusWithoutTime, Size::Octets(1)),
    object!(11, 2, StatusWithTime, Size::Octets(7)),
    object!(12, 0, AnyVariation, Size::Varying),
    object!(12, 1, ControlRelayOutputBlock, Size::Octets(11)),
    object!(12, 2, PatternControlBlock, Size::Octets(11)),
    object!(12, 3, PatternMask, Size::Bit),
    object!(13, 0, AnyVariation, Size::Varying),
    object!(13, 1, CommandStatusWithoutTime, Size::Octets(1)),
    object!(13, 2, CommandStatusWithTime, Size::Octets(7)),
    object!(20, 0, AnyVariation, Size::Varying),
    object!(20, 1, WideWithFlag, Size::Octets(5)),
    object!(20, 2, NarrowWithFlag, Size::Octets(3)),
    object!(20, 3, WideWithFlagDelta, Size::Octets(5)),
    object!(20, 4, NarrowWithFlagDelta, Size::Octets(3)),
    object!(20, 5, WideWithoutFlag, Size::Octets(4)),
    object!(20, 6, NarrowWithoutFlag, Size::Octets(2)),
    object!(20, 7, WideWithoutFlagDelta, Size::Octets(4)),
    object!(20, 8, NarrowWithoutFlagDelta, Size::Octets(2)),
    object!(21, 0, AnyVariation, Size::Varying),
    object!(21, 1, WideWithFlag, Size::Octets(5)),
    object!(21, 2, NarrowWithFlag, Size::Octets(3)),
    object!(21, 3, WideWithFlagDelta, Size::Octets(5)),
    object!(21, 4, NarrowWithFlagDelta, Size::Octets(3)),
    object!(21, 5, WideWithFlagAndTime, Size::Octets(11)),
    object!(21, 6, NarrowWithFlagAndTime, Size::Octets(9)),
    object!(21, 7, WideWithFlagAndTimeDelta, Size::Octets(11)),
    object!(21, 8, NarrowWithFlagAndTimeDelta, Size::Octets(9)),
    object!(21, 9, WideWithoutFlag, Size::Octets(4)),
    object!(21, 10, NarrowWithoutFlag, Size::Octets(2)),
    object!(21, 11, WideWithoutFlagDelta, Size::Octets(4)),
    object!(21, 12, NarrowWithoutFlagDelta, Size::Octets(2)),
    object!(22, 0, AnyVariation, Size::Varying),
    object!(22, 1, WideWithFlag, Size::Octets(5)),
    object!(22, 2, NarrowWithFlag, Size::Octets(3)),
    object!(22, 3, WideWithFlagDelta, Size::Octets(5)),
    object!(22, 4, NarrowWithFlagDelta, Size::Octets(3)),
    object!(22, 5, WideWithFlagAndTime, Size::Octets(11)),
    object!(22, 6, NarrowWithFlagAndTime, Size::Octets(9)),
    object!(22, 7, WideWithFlagAndTimeDelta, Size::Octets(11)),
    object!(22, 8, NarrowWithFlagAndTimeDelta, Size::Octets(9)),
    object!(23, 0, AnyVariation, Size::Varying),
    object!(23, 1, WideWithFlag, Size::Octets(5)),
    object!(23, 2, NarrowWithFlag, Size::Octets(3)),
    object!(23, 3, WideWithFlagDelta, Size::Octets(5)),
    object!(23, 4, NarrowWithFlagDelta, Size::Octets(3)),
    object!(23, 5, WideWithFlagAndTime, Size::Octets(11)),
    object!(23, 6, NarrowWithFlagAndTime, Size::Octets(9)),
    object!(23, 7, WideWithFlagAndTimeDelta, Size::Octets(11)),
    object!(23, 8, NarrowWithFlagAndTimeDelta, Size::Octets(9)),
    object!(30, 0, AnyVariation, Size::Varying),
    object!(30, 1, WideWithFlag, Size::Octets(5)),
    object!(30, 2, NarrowWithFlag, Size::Octets(3)),
    object!(30, 3, WideWithoutFlag, Size::Octets(4)),
    object!(30, 4, NarrowWithoutFlag, Size::Octets(2)),
    object!(30, 5, FloatWithFlag, Size::Octets(5)),
    object!(30, 6, DoubleWithFlag, Size::Octets(9)),
    object!(31, 0, AnyVariation, Size::Varying),
    object!(31, 1, WideWithFlag, Size::Octets(5)),
    object!(31, 2, NarrowWithFlag, Size::Octets(3)),
    object!(31, 3, WideWithTimeOfFreeze, Size::Octets(11)),
    object!(31, 4, NarrowWithTimeOfFreeze, Size::Octets(9)),
    object!(31, 5, WideWithoutFlag, Size::Octets(4)),
    object!(31, 6, NarrowWithoutFlag, Size::Octets(2)),
    object!(31, 7, FloatWithFlag, Size::Octets(5)),
    object!(31, 8, DoubleWithFlag, Size::Octets(9)),
    object!(32, 0, AnyVariation, Size::Varying),
    object!(32, 1, WideWithoutTime, Size::Octets(5)),
    object!(32, 2, NarrowWithoutTime, Size::Octets(3)),
    object!(32, 3, WideWithTime, Size::Octets(11)),
    object!(32, 4, NarrowWithTime, Size::Octets(9)),
    object!(32, 5, FloatWithoutTime, Size::Octets(5)),
    object!(32, 6, DoubleWithoutTime, Size::Octets(9)),
    object!(32, 7, FloatWithTime, Size::Octets(11)),
    object!(32, 8, DoubleWithTime, Size::Octets(15)),
    object!(33, 0, AnyVariation, Size::Varying),
    object!(33, 1, WideWithoutTime, Size::Octets(5)),
    object!(33, 2, NarrowWithoutTime, Size::Octets(3)),
    object!(33, 3, WideWithTime, Size::Octets(11)),
    object!(33, 4, NarrowWithTime, Size::Octets(9)),
    object!(33, 5, FloatWithoutTime, Size::Octets(5)),
    object!(33, 6, DoubleWithoutTime, Size::Octets(9)),
    object!(33, 7, FloatWithTime, Size::Octets(11)),
    object!(33, 8, DoubleWithTime, Size::Octets(15)),
    object!(34, 0, AnyVariation, Size::Varying),
    object!(34, 1, Narrow, Size::Octets(2)),
    object!(34, 2, Wide, Size::Octets(4)),
    object!(34, 3, Float, Size::Octets(4)),
    object!(40, 0, AnyVariation, Size::Varying),
    object!(40, 1, WideWithFlag, Size::Octets(5)),
    object!(40, 2, NarrowWithFlag, Size::Octets(3)),
    object!(40, 3, FloatWithFlag, Size::Octets(5)),
    object!(40, 4, DoubleWithFlag, Size::Octets(9)),
    object!(41, 0, AnyVariation, Size::Varying),
    object!(41, 1, Wide, Size::Octets(5)),
    object!(41, 2, Narrow, Size::Octets(3)),
    object!(41, 3, Float, Size::Octets(5)),
    object!(41, 4, Double, Size::Octets(9)),
    object!(42, 0, AnyVariation, Size::Varying),
    object!(42, 1, WideWithoutTime, Size::Octets(5)),
    object!(42, 2, NarrowWithoutTime, Size::Octets(3)),
    object!(42, 3, WideWithTime, Size::Octets(11)),
    object!(42, 4, NarrowWithTime, Size::Octets(9)),
    object!(42, 5, FloatWithoutTime, Size::Octets(5)),
    object!(42, 6, DoubleWithoutTime, Size::Octets(9)),
    object!(42, 7, FloatWithTime, Size::Octets(11)),
    object!(42, 8, DoubleWithTime, Size::Octets(15)),
    object!(43, 0, AnyVariation, Size::Varying),
    object!(43, 1, WideWithoutTime, Size::Octets(5)),
    object!(43, 2, NarrowWithoutTime, Size::Octets(3)),
    object!(43, 3, WideWithTime, Size::Octets(11)),
    object!(43, 4, NarrowWithTime, Size::Octets(9)),
    object!(43, 5, FloatWithoutTime, Size::Octets(5)),
    object!(43, 6, DoubleWithoutTime, Size::Octets(9)),
    object!(43, 7, FloatWithTime, Size::Octets(11)),
    object!(43, 8, DoubleWithTime, Size::Octets(15)),
    object!(50, 0, AnyVariation, Size::Varying),
    object!(50, 1, AbsoluteTime, Size::Octets(6)),
    object!(50, 2, AbsoluteTimeAndInterval, Size::Octets(10)),
    object!(50, 3, AbsoluteTimeAtLastRecordedTime, Size::Octets(6)),
    object!(50, 4, IndexedAbsoluteTimeAndLongInterval, Size::Octets(11)),
    object!(51, 0, AnyVariation, Size::Varying),
    object!(51, 1, AbsoluteTimeSynchronized, Size::Octets(6)),
    object!(51, 2, AbsoluteTimeUnsynchronized, Size::Octets(6)),
    object!(52, 0, AnyVariation, Size::Varying),
    object!(52, 1, Coarse, Size::Octets(2)),
    object!(52, 2, Fine, Size::Octets(2)),
    object!(60, 0, AnyVariation, Size::Varying),
    object!(60, 1, Class0Data, Size::Octets(0)),
    object!(60, 2, Class1Data, Size::Octets(0)),
    object!(60, 3, Class2Data, Size::Octets(0)),
    object!(60, 4, Class3Data, Size::Octets(0)),
    object!(70, 0, AnyVariation, Size::Varying),
    object!(70, 1, FileIdentifier, Size::Varying),
    object!(70, 2, Authentication, Size::Varying),
    object!(70, 3, FileCommand, Size::Varying),
    object!(70, 4, FileCommandStatus, Size::Varying),
    object!(70, 5, FileTransport, Size::Varying),
    object!(70, 6, FileTransportStatus, Size::Varying),
    object!(70, 7, FileDescriptor, Size::Varying),
    object!(70, 8, FileSpecificationString, Size::Varying),
    object!(80, 0, AnyVariation, Size::Varying),
    object!(80, 1, PackedFormat, Size::Bit),
    object!(81, 1, BufferFillStatus, Size::Octets(3)),
    object!(82, 1, FunctionsAndIndexes, Size::Varying),
    object!(83, 1, PrivateRegistrationObject, Size::Varying),
    object!(83, 2, PrivateRegistrationObjectDescriptor, Size::Varying),
    object!(85, 0, AnyVariation, Size::Varying),
    object!(85, 1, WithUuid, Size::Varying),
    object!(86, 0, AnyVariation, Size::Varying),
    object!(86, 1, DataSetContents, Size::Varying),
    object!(86, 2, Characteristics, Size::Octets(1)),
    object!(86, 3, PointIndexAttributes, Size::Varying),
    object!(87, 0, AnyVariation, Size::Varying),
    object!(87, 1, PresentValue, Size::Varying),
    object!(88, 0, AnyVariation, Size::Varying),
    object!(88, 1, Snapshot, Size::Varying),
    object!(90, 0, AnyVariation, Size::Varying),
    object!(90, 1, ApplicationIdentifier, Size::Varying),
    object!(91, 0, AnyVariation, Size::Varying),
    object!(91, 1, ActivateConfiguration, Size::Varying),
    object!(101, 0, AnyVariation, Size::Varying),
    object!(101, 1, Small, Size::Octets(2)),
    object!(101, 2, Medium, Size::Octets(4)),
    object!(101, 3, Large, Size::Octets(8)),
    object!(102, 0, AnyVariation, Size::Varying),
    object!(102, 1, EightBit, Size::Octets(1)),
    object!(120, 1, Challenge, Size::Varying),
    object!(120, 2, Reply, Size::Varying),
    object!(120, 3, AggressiveModeRequest, Size::Octets(6)),
    object!(120, 4, SessionKeyStatusRequest, Size::Octets(2)),
    object!(120, 5, SessionKeyStatus, Size::Varying),
    object!(120, 6, SessionKeyChange, Size::Varying),
    object!(120, 7, AuthenticationError, Size::Varying),
    object!(120, 8, UserCertificate, Size::Varying),
    object!(120, 9, MessageAuthenticationCode, Size::Varying),
    object!(120, 10, UserStatusChange, Size::Varying),
    object!(120, 11, UpdateKeyChangeRequest, Size::Varying),
    object!(120, 12, UpdateKeyChangeReply, Size::Varying),
    object!(120, 13, UpdateKeyChange, Size::Varying),
    object!(120, 14, UpdateKeyChangeSignature, Size::Varying),
    object!(120, 15, UpdateKeyChangeConfirmation, Size::Varying),
    object!(121, 0, AnyVariation, Size::Varying),
    object!(121, 1, WideWithFlag, Size::Octets(7)),
    object!(122, 0, AnyVariation, Size::Varying),
    object!(122, 1, WideWithFlag, Size::Octets(7)),
    object!(122, 2, WideWithFlagAndTime, Size::Octets(13)),
];

/// The groups of octet strings and of the virtual terminal: an object has as many octets as its variation says.
const FIRST_STRING: u8 = 110;

const LAST_STRING: u8 = 113;

/// The line of the table for this group and variation.
#[tactic(auto, unfolding(crate::specs::Objects::objects, crate::specs::Objects::listed))]
fn listed(group: u8, variation: u8) -> Option<Object>
    ensures { result ≡ spec.listed group variation }
{
    OBJECTS.iter().copied().find(|object| object.group == group && object.variation == variation)
}

/// The object of this group and variation, if the library has it.
pub fn object_of(group: u8, variation: u8) -> Option<Object>
    ensures { result ≡ spec.object_of group variation }
{
    if (FIRST_STRING..=LAST_STRING).contains(&group) {
        return Some(Object {
            group,
            variation,
            kind: if variation == 0 {
                Kind::AnyVariation
            } else {
                Kind::SizeOfVariation
            },
            size: if variation == 0 {
                Size::Varying
            } else {
                Size::Octets(variation)
            },
        });
    }
    listed(group, variation)
}
