/// A time as a record's header has it (SEED 2.4, chapter 3, BTIME). The fields may name no time.
#[derive(Clone, Copy, Debug, PartialEq, Eq)]
pub struct BTime {
    pub year: u16,
    /// Day of the year, from 1.
    pub day: u16,
    pub hour: u8,
    pub minute: u8,
    /// 60 stands for the second after the 59th.
    pub second: u8,
    /// Ten-thousandths of a second.
    pub fraction: u16,
}
