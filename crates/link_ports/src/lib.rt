//! Ports: what gives the links of a server, one after another, and takes them back with their turns.
//!
//! What the crates above use: the trait [`Port`]. What is told of a port at one moment is one record, its `PortView`
//! (`specs/Ports.antt`): the links that it has left to give, and those that came back with the turns of their sessions, each
//! where it tells them, and how often it failed. What a call does is one relation of two views, `Accepts` and `TakesBack`. A
//! link can't be dropped but by giving it back, since the type that a port gives promises no `Drop`.
//!
//! [`MemoryPort`] is exact (`specs/Memory.antt`): which call fails is said by its number, and which link is given by its
//! place. [`TcpPort`] listens at one address and gives a [`TcpLink`] for each connection, or dials one peer, once for each call;
//! these tell nothing but their faults.
//! [`TellingPort`] is any port, and writes a line where it fails.
#![tactic(auto)]

mod memory;
mod port;
mod tcp_link;
mod tcp_port;
mod telling;
mod way;

pub use memory::{MemoryPort, Returned};
pub use port::Port;
pub use tcp_link::TcpLink;
pub use tcp_port::{PATIENCE, TcpPort};
pub use telling::TellingPort;
