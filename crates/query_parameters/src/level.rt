/// What an answer has a line for (FDSN Web Service Specifications 1.2, station, `level`).
#[derive(Clone, Copy, Debug, PartialEq, Eq)]
pub enum Level {
    Network,
    Station,
    Channel,
}
