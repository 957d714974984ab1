//! What holds of all runs.
ghost use Rattle.arrowmem.specs.RunsTo.{WordsHaveOneAnswer};

use plan_text::bytes_are_one_plan;
use row_text::bytes_have_one_reading;
use script::texts_have_one_reading;

/// The law that the causes of the statuses exclude each other: but for want of memory, words have one answer over some files.
pub fn words_have_one_answer()
    ensures { WordsHaveOneAnswer }
{
    texts_have_one_reading();
    bytes_are_one_plan();
    bytes_have_one_reading();
}
