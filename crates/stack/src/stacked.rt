//! Sheets that know what they stand on.

ghost use Rattle.std.specs.Prelude.{◌≡◌};
ghost use Rattle.stack.specs.Stacks.{Stack, reading, free_of};
ghost use Rattle.stack.specs.Places.{look_told, edit_told, changed};

use crate::step::Turn;
use history::operation::{Answer, Edit, LookUp};
use sheet::sheet::Sheet;

/// A sheet that knows the sheets below it, and lets each place be asked and edited.
///
/// A route leads from the top to a place: at each layer it names the sheet below to go on to. Where it leads nowhere, or to a sheet that
/// cannot do what is asked, the answer is `Nowhere` and nothing changes.
pub trait Stacked: Sheet {
    ghost stack: { Self → Stack };

    /// Asks the sheet at the end of the route.
    fn look_up(&self, route: &[Turn], question: LookUp) -> Answer
        ensures { result ≡ look_told (stack self.now) route.now question };

    /// How many links the sheet can still take, where it can be edited.
    fn free_if_editable(&self) -> Option<u32>
        ensures { result ≡ free_of (stack self.now) }
    {
        match self.look_up(&[], LookUp::Free) {
            Answer::Free(free) => Some(free),
            _ => None,
        }
    }

    /// Edits the sheet at the end of the route.
    fn edit(&mut self, route: &[Turn], edit: Edit) -> Answer
        ensures answer { result ≡ edit_told (stack self.old) route.now edit }
        ensures after { stack self.new ≡ changed (stack self.old) route.now edit };

    ghost reads: { (s : Self) → Self.Sheet.meaning s ≡ reading (stack s) };
}
