/// Words of which a measure is a share. Units and atoms are counted from 0.
#[derive(Clone, Copy, Debug, PartialEq, Eq)]
pub(crate) enum WordSet {
    /// All units are busy.
    Full,
    /// Exactly one unit is free.
    OneFree,
    /// This unit is busy.
    Busy(u8),
    /// To a call of this atom that needs two units, these two are sent.
    BothSent(u16, u8, u8),
}
