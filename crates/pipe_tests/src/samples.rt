//! Programs whose members may overtake.
/// A `team` of three members with two phases, without a crossing of two pieces.
pub const TWO_STEPS: &[u8] = b"array a[6]; array b[6];
    team i in 0..6 by 3 { a[i] = i + 1; } barrier { b[i] = a[i / 2] * 10; }";

/// The writes of its pieces.
pub const BOTH_STEPS: [(u16, i64); 12] = [
    (0, 1),
    (1, 2),
    (2, 3),
    (3, 4),
    (4, 5),
    (5, 6),
    (6, 10),
    (7, 10),
    (8, 20),
    (9, 20),
    (10, 30),
    (11, 30),
];
