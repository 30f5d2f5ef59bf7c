//! The server for a host program that is written in C: the static library of `nitpicker.h`.
//!
//! A host program keeps a [`NitServer`](handle::NitServer), and each thing that it does is one
//! export. An export takes the server out of its handle, does one call of `nit_host` and puts it
//! back. It tests whatever a C program may get wrong, and answers it by a number; where a handle
//! has no server it does nothing.
//!
//! The tests are in C, in `embed/tests`.
#![tactic(auto)]

mod calls;
mod clients;
mod damage;
mod handle;
mod input;
mod looking;
mod numbers;
mod opening;
mod raw_box;
mod reading;
mod reply;
mod restacking;
mod routed;
mod seats;
mod viewing;
