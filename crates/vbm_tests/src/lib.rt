//! Tests of what no run of the program shows: the bytes of headers, block maps that are too large for a file, the ports in memory,
//! and what a crash leaves of a disk in memory. Runs of the program are in `tests/lab`.
#![tactic(auto)]

#[cfg(test)]
mod blockmaps;
#[cfg(test)]
mod headers;
#[cfg(test)]
mod histories;
#[cfg(test)]
mod images;
#[cfg(test)]
mod maps;
#[cfg(test)]
mod ports;
#[cfg(test)]
mod quiet;
