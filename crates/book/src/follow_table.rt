//! The follow table: which kinds stand behind which, as far as the kind of the record before tells.

use crate::shape::KINDS;

// `T` and `F` are short, so that a row of the table is one line.
const T: bool = true;

const F: bool = false;

/// Rows by the kind before, columns by the kind at hand: whether the one may stand behind the other. Row 0 stands for
/// no record before; kinds 1 to 16 are passed over and do not come here. Ten columns a group.
#[rattlefmt::skip]
pub const FOLLOW: [[bool; KINDS]; KINDS] = [
    [F,F,F,F,F,F,F,F,F,F, F,F,F,F,F,F,F,F,F,F, T,T,T,T,T,T,F,F,F,F, F,F,F,F,F,F,F], // 0 nothing
    [F; KINDS], // 1
    [F; KINDS], // 2
    [F; KINDS], // 3
    [F; KINDS], // 4
    [F; KINDS], // 5
    [F; KINDS], // 6
    [F; KINDS], // 7
    [F; KINDS], // 8
    [F; KINDS], // 9
    [F; KINDS], // 10
    [F; KINDS], // 11
    [F; KINDS], // 12
    [F; KINDS], // 13
    [F; KINDS], // 14
    [F; KINDS], // 15
    [F; KINDS], // 16
    [F; KINDS], // 17
    [F; KINDS], // 18
    [F; KINDS], // 19
    [F,F,F,F,F,F,F,F,F,F, F,F,F,F,F,F,F,F,F,F, T,T,T,T,T,T,F,F,F,F, F,T,T,T,T,F,F], // 20 message
    [F,F,F,F,F,F,F,F,F,F, F,F,F,F,F,F,F,F,F,F, T,T,T,T,T,T,F,F,F,F, F,T,T,T,F,F,F], // 21 union
    [F,F,F,F,F,F,F,F,F,F, F,F,F,F,F,F,F,F,F,F, T,T,T,T,T,T,F,F,F,F, F,F,F,F,F,F,F], // 22 newtype
    [F,F,F,F,F,F,F,F,F,F, F,F,F,F,F,F,F,F,F,F, T,T,T,T,T,T,F,F,F,F, T,F,F,F,F,F,F], // 23 alias
    [F,F,F,F,F,F,F,F,F,F, F,F,F,F,F,F,F,F,F,F, T,T,T,T,T,T,F,F,F,F, F,F,F,F,F,F,F], // 24 constant
    [F,F,F,F,F,F,F,F,F,F, F,F,F,F,F,F,F,F,F,F, T,T,T,T,T,T,F,F,F,F, F,F,F,F,F,F,F], // 25 ambiguous name
    [F; KINDS], // 26
    [F; KINDS], // 27
    [F; KINDS], // 28
    [F; KINDS], // 29
    [F,F,F,F,F,F,F,F,F,F, F,F,F,F,F,F,F,F,F,F, T,T,T,T,T,T,F,F,F,F, T,F,F,F,F,F,F], // 30 type parameter
    [F,F,F,F,F,F,F,F,F,F, F,F,F,F,F,F,F,F,F,F, T,T,T,T,T,T,F,F,F,F, F,T,T,T,T,F,F], // 31 field
    [F,F,F,F,F,F,F,F,F,F, F,F,F,F,F,F,F,F,F,F, T,T,T,T,T,T,F,F,F,F, F,T,T,T,F,F,T], // 32 tombstone
    [F,F,F,F,F,F,F,F,F,F, F,F,F,F,F,F,F,F,F,F, T,T,T,T,T,T,F,F,F,F, F,T,T,T,F,F,F], // 33 variant
    [F,F,F,F,F,F,F,F,F,F, F,F,F,F,F,F,F,F,F,F, T,T,T,T,T,T,F,F,F,F, F,T,T,T,T,T,F], // 34 annotation
    [F,F,F,F,F,F,F,F,F,F, F,F,F,F,F,F,F,F,F,F, T,T,T,T,T,T,F,F,F,F, F,T,T,T,T,T,F], // 35 argument
    [F,F,F,F,F,F,F,F,F,F, F,F,F,F,F,F,F,F,F,F, T,T,T,T,T,T,F,F,F,F, F,T,T,T,F,F,T], // 36 tombstone argument
];
