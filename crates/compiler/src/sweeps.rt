// Sweeps: document 02, A.7.
ghost use Rattle.std.specs.Prelude.{◌≡◌};
ghost use Rattle.model.specs.Compile.{sweep};
ghost use Rattle.model.proofs.Compiles.{Ends};
ghost use Rattle.compiler.specs.Compilation.{compiled_of};

use crate::{Written, check_words};
use numbers::wide;
use refusal::Refusal;
use writer::rows::{first_bare, write_rows};

// 1 to 4, 26, 6 and the rows, from the plan's positions.
pub fn compile_rows(
    n: u32,
    plan: &[u32],
    work: &mut [u32],
    words: &mut [u32],
) -> Result<Written, Refusal>
    ensures { Ends sweep n plan.now work.old words.old (compiled_of result) work.new words.new }
{
    plans::check(n, plan, work.len(), 1)?;
    slots::mark(n, plan, work);
    let bare = first_bare(n, work);
    if bare != 0 {
        slots::clear(work, wide(n * n));
        return Err(Refusal::DiagonalMissing {
            row: u64::from(bare),
        });
    }
    let labels = plan.len() as u32;
    let records = 1 + 2 * n + labels;
    check_words(records, words.len())?;
    write_rows(n, plan, work, words);
    Ok(Written {
        slots: 0,
        products: labels - n,
        records,
    })
}
