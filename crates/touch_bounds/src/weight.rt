//! Whether the analysis of a text is worth its time, compared with a walk through its work. No contract depends on it: a text
//! that isn't settled is walked.
use array_eval::span;
use array_tree::{Block, Blocks, Stmt};

/// The greatest number of branches of a `par`, and of members of a `team`.
pub const MOST_MEMBERS: u64 = 64;

// The number of statements in a text, and the number that run, loops included. The greatest number of 64 bits also stands for
// all greater numbers.
#[derive(Clone, Copy, Drop)]
struct Weight {
    text: u64,
    work: u64,
}

impl Weight {
    // No statement.
    fn none() -> Weight {
        Weight { text: 0, work: 0 }
    }

    // One more statement.
    fn and_one(self) -> Weight {
        Weight {
            text: self.text.saturating_add(1),
            work: self.work.saturating_add(1),
        }
    }

    // The sum of both.
    fn and(self, other: Weight) -> Weight {
        Weight {
            text: self.text.saturating_add(other.text),
            work: self.work.saturating_add(other.work),
        }
    }

    // The same text, run so many times. The work of a loop without a turn is 0.
    fn times(self, turns: u64) -> Weight {
        Weight {
            text: self.text,
            work: self.work.saturating_mul(turns),
        }
    }

    // The same text, with a work of so many statements more.
    fn beside(self, statements: u64) -> Weight {
        Weight {
            text: self.text,
            work: self.work.saturating_add(statements),
        }
    }

    // Whether its work is more than ten times the work of analysing so many texts and comparing each two of so many pieces.
    // Comparing two pieces costs about a thirtieth of a statement.
    fn pays(self, texts: u64, pieces: u64) -> bool {
        let pairs = pieces.saturating_mul(pieces) / 32;
        self.work / 10 >= self.text.saturating_mul(texts).saturating_add(pairs)
    }
}

/// Whether analysing a statement's text is worth its time.
pub fn statement_pays(statement: &Stmt) -> bool {
    weigh_statement(statement).pays(1, 1)
}

/// Whether analysing the texts of branches is worth its time.
pub fn branches_pay(branches: &Blocks) -> bool {
    weigh_blocks(branches).pays(1, branches.blocks.len() as u64)
}

/// Whether analysing a phase's text for each member of a team with so many iterations is worth its time, if the analysis also
/// saves the time of so many statements.
pub fn phase_pays(phase: &Block, iterations: u64, members: u64, saved: u64) -> bool {
    weigh_block(phase)
        .and_one()
        .times(iterations)
        .beside(saved)
        .pays(members, members)
}

/// Whether analysing the text of a loop's body once, for all its turns, is worth its time. The text of each phase may be
/// analysed for each of up to 64 members, and each two of as many pieces compared.
pub fn loop_pays(body: &Block, turns: u64) -> bool {
    weigh_block(body)
        .times(turns)
        .pays(MOST_MEMBERS, MOST_MEMBERS)
}

// The weight of a block: all its statements, in all turns of the loops inside.
#[cycle(weigh)]
fn weigh_block(block: &Block) -> Weight {
    let mut weight = Weight::none();
    for statement in &block.statements {
        weight = weight.and(weigh_statement(statement));
    }
    weight
}

// The same for branches or phases.
#[cycle(weigh)]
fn weigh_blocks(blocks: &Blocks) -> Weight {
    let mut weight = Weight::none();
    for block in &blocks.blocks {
        weight = weight.and(weigh_block(block));
    }
    weight
}

// The same for a statement. Both sides of an `if` count, since the walk visits both. The body of a loop or a team without a
// turn doesn't count. Why: the walk doesn't visit it, so analysing it could cost more than the walk.
#[cycle(weigh)]
fn weigh_statement(statement: &Stmt) -> Weight {
    match statement {
        Stmt::Assign { .. } => Weight::none().and_one(),
        Stmt::For {
            low,
            high,
            body,
            ..
        } => match span(*low, *high) {
            0 => Weight::none().and_one(),
            turns => weigh_block(body).and_one().times(turns),
        },
        Stmt::If {
            then_block,
            else_block,
            ..
        } => weigh_block(then_block)
            .and(weigh_block(else_block))
            .and_one(),
        Stmt::Par { branches, .. } => weigh_blocks(branches).and_one(),
        Stmt::Team {
            low,
            high,
            phases,
            ..
        } => match span(*low, *high) {
            0 => Weight::none().and_one(),
            turns => weigh_blocks(phases).and_one().times(turns),
        },
    }
}
