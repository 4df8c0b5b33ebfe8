// Whether a plan costs as many products as a full table. Document 02, A.14.
#![tactic(auto)]

ghost use Rattle.std.specs.Prelude.{◌≡◌, ◌≤◌, length};
ghost use Rattle.model.specs.Dearest.{costs, work_costed, most_products};
ghost use Rattle.costs.specs.Costed.{costs_of};

use refusal::Refusal;
use slots::Firsts;

// Whether its products are as many as a full table's, after 1 to 5. The work numbers are left as the compiler leaves them.
pub fn costs_most(n: u32, plan: &[u32], work: &mut [u32]) -> Result<bool, Refusal>
    ensures answer { costs_of result ≡ costs n plan.now (length work.old) }
    ensures work { work.new ≡ work_costed n plan.now work.old }
{
    let mut firsts = Firsts::room();
    let filled = plans::slots(n, plan, work, &mut firsts, 1)?;
    Ok(filled.products == most_products(n))
}

// The products of a full table: n (n - 1)(2n - 1) / 6 for its pairs, and n (n - 1) for y and x.
#[tactic(auto, unfolding(model::specs::Dearest::most_products))]
fn most_products(n: u32) -> u32
    requires { (1 ≤ n) × (n ≤ 600) }
    ensures { result ≡ most_products n }
{
    let beside = n * (n - 1);
    beside * (2 * n - 1) / 6 + beside
}
