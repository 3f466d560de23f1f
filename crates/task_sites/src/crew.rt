//! The state that all harts of a run share.
ghost use Rattle.std.specs.Prelude.{◌≡◌};

use crate::board::{CrewBoard, Naming};
use crate::countdown::Countdown;
use crate::perches::{PaddedWords, Perches, padded_words};
use crate::site::Site;
use open_board::{OpenBoard, Size};
use std::alloc::{AllocError, Global};
use std::sync::atomic::Ordering;
use std::sync::{Arc, Mutex, Wait};
use tasks::TaskKind;

/// A cell for each site of the board: it holds the tasks of the site while guests may enter it.
type Cell<T> = Mutex<Option<Arc<Site<T>, Global>>>;

/// The state that all harts of a run share: the board, a cell for each site, and where harts rest.
#[derive(Drop)]
pub struct Crew<T: TaskKind, B: Naming> {
    pub(crate) board: CrewBoard<B>,
    pub(crate) size: Size,
    cells: Vec<Cell<T>>,
    // For each hart, bit k is 1 if the k-th site of which the hart is the home may want harts. Only the hart writes it.
    wishes: PaddedWords,
    pub(crate) perches: Perches,
    // 1 until the run has ended.
    run: Countdown,
    /// The crew has the board's harts and levels.
    pub ghost sized: { size ≡ B.size },
}

impl<T: TaskKind, B: Naming> Crew<T, B> {
    /// Makes a crew of the harts of a board.
    ///
    /// # Errors
    ///
    /// An allocation failure. The board is then dropped.
    ///
    /// # Memory
    ///
    /// For each site a cell of a few words and a padded word (128 bytes), and for each hart two padded words.
    pub fn new(alloc: Global, board: OpenBoard) -> Result<Crew<T, B>, AllocError>
        requires board { board.table.shared.table_id ≡ B.table }
        requires size { board.size ≡ B.size }
    {
        let size = board.size();
        let sites = size.harts as usize * size.levels as usize;
        Ok(Crew {
            board: CrewBoard::new(board),
            size,
            cells: empty_cells(alloc, sites)?,
            wishes: padded_words(alloc, size.harts as usize)?,
            perches: Perches::new(alloc, size.harts, size.levels)?,
            run: Countdown::new(1),
        })
    }

    /// Ends the run: each hart that rests at the base wakes, and ends. It is called once.
    pub fn end(&self) {
        self.run.take(1);
        self.perches.wake(0, self.size.harts as usize);
    }

    /// Whether the run has still to end: 1 or 0.
    pub(crate) fn run(&self) -> &Countdown {
        &self.run
    }

    /// Returns the board.
    pub fn into_board(self) -> OpenBoard
        ensures board { result.table.shared.table_id ≡ B.table }
        ensures size { result.size ≡ B.size }
    {
        let Crew {
            board,
            size: _,
            cells: _,
            wishes: _,
            perches: _,
            run: _,
        } = self;
        board.into_board()
    }

    /// Lays the tasks of a site into its cell. Returns whether they are there.
    pub(crate) fn lay<R: Wait>(&self, rt: &R, number: u16, site: &Arc<Site<T>, Global>) -> bool {
        let Ok(copy) = Arc::try_clone(site) else {
            return false;
        };
        let Some(cell) = self.cells.get((number as usize).wrapping_sub(1)) else {
            return false;
        };
        *cell.lock(rt) = Some(copy);
        true
    }

    /// Empties the cell of a site.
    pub(crate) fn clear<R: Wait>(&self, rt: &R, number: u16) {
        if let Some(cell) = self.cells.get((number as usize).wrapping_sub(1)) {
            let _laid = cell.lock(rt).take();
        }
    }

    /// The tasks in the cell of a site.
    pub(crate) fn laid<R: Wait>(&self, rt: &R, number: u16) -> Option<Arc<Site<T>, Global>> {
        let cell = self.cells.get((number as usize).wrapping_sub(1))?;
        let laid = cell.lock(rt);
        match &*laid {
            Some(site) => Arc::try_clone(site).ok(),
            None => None,
        }
    }

    /// Shows which sites of a hart may want harts.
    pub(crate) fn show_wishes(&self, hart: u8, wishes: u64) {
        if let Some(word) = self.wishes.get(hart as usize) {
            word.store(wishes, Ordering::SeqCst);
        }
    }

    /// The sites of a hart that may want harts, as bits.
    pub(crate) fn wishes_of(&self, hart: u8) -> u64 {
        match self.wishes.get(hart as usize) {
            Some(word) => word.load(Ordering::SeqCst),
            None => 0,
        }
    }
}

// So many empty cells.
fn empty_cells<T: TaskKind>(alloc: Global, count: usize) -> Result<Vec<Cell<T>>, AllocError> {
    let mut cells = Vec::with_capacity(alloc, count)?;
    for _site in 0..count {
        cells.push(Mutex::new(None))?;
    }
    Ok(cells)
}
