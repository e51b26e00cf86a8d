//! A C interface to tables of IPv4 and IPv6 networks, with values of 64 bits.
//!
//! `include/prefix_trie.h` declares it, and `examples` has a program in C and the same in Rust. C points to a table,
//! which has a map of each family. The exported functions take the address of a variable with that pointer, which is a
//! handle: it owns the table, or is null. Each call returns a code, and writes its other results only if the code is
//! `DONE`. `get`, `match_address` and `lookup` return the code together with the results, in registers.
//!
//! A compiled table has handles of its own. Each owns a box with an `Arc`, and the boxes may be on different threads.
//!
//! # What is proved
//!
//! Each exported function meets its contract for every handle that these functions left and for all numbers. The
//! contract states the code, the entries that are stored afterwards, what is written, and that the table stays in its
//! place, so that a caller may keep the pointer in another variable. A length above the width, a null pointer in place
//! of a table, a handle that is not null in place of a new one, and arrays of different lengths are codes. So is a failed
//! allocation, which changes no entry. An insertion and a removal are steps of a map, of its storage too. After
//! `prefix_trie_c_free` the handle is null, and a second call does nothing. That it frees all memory is tested. A compiled
//! table has the longest match of each address in the table that it was compiled from.
//!
//! # What the caller must keep
//!
//! - No pointer is null, except one to a table. The functions of the header check the others, and return
//!   `PREFIX_TRIE_NULL`. They are C, and not proved.
//! - A pointer points to a value of its type, and nothing else uses that value during the call. An array is as long as
//!   the call is told.
//! - A pointer to a table is null, or `prefix_trie_c_new` made it and `prefix_trie_c_free` was not called with it.
//! - A table is in one call at a time, also if the calls only read, and so is each handle of a compiled table. Both may
//!   go to another thread (`Send` is proved) if a lock, a thread's start or join, or a sequentially consistent atomic
//!   orders the calls.
//! - A variable that points to a table is written by each call. Calls that only read do not write to the table.
//! - `malloc`, `realloc` and `free` are those of one allocator, and align each block as C requires. No call comes from
//!   a signal handler, or from the forked child of a process with threads.
#![tactic(auto)]

mod bulk;
mod calls;
mod codes;
mod compile;
mod compiled;
mod compiled_handle;
mod entries;
mod handle;
mod lending;
mod lookups;
mod loose;
mod table;
mod tables;
mod v4;
mod v6;
mod version;
