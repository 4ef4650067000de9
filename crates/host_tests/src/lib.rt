//! The link over real sockets: a datagram and a piece of a request, sent over loopback, are heard.
//!
//! There is nothing here but tests. They show that something comes of a real socket, which no
//! contract can say. They don't stand in `officed`, since a program with tests is proved twice.
#![tactic(auto)]

#[cfg(test)]
mod hearing;
