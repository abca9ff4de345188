ghost use Rattle.std.specs.Prelude.{◌≡◌, ◌≤◌, ◌↔◌, [], None, IfSome};
ghost use Rattle.fof_models.specs.Structures.{reading, IsWellFormed};
ghost use Rattle.fof_models.specs.Models.{AreModel, IsFirstFalse};
ghost use Rattle.fof_models.specs.Sound.{IsSound, most_terms};

use crate::env::FofEnv;
use crate::problem::FofProblem;
use crate::structure::Structure;

impl Structure {
    /// The index of the first formula of a problem that isn't true, or `None` exactly where the
    /// structure is a model. The environment is empty before and after. It takes no memory.
    pub fn first_false(&self, problem: &FofProblem, env: &mut FofEnv) -> Option<usize>
        requires well_formed { IsWellFormed problem.now.signature self.now }
        requires sound { IsSound problem.now }
        requires empty { env.old.items ≡ [] }
        requires room { most_terms problem.now ≤ env.old.room }
        ensures exact { (result ≡ None) ↔ AreModel problem.now self.now }
        ensures least { IfSome result (IsFirstFalse (reading self.now) problem.now.formulas) }
        ensures kept { env.new ≡ env.old }
    {
        let signature = problem.signature.as_slice();
        for (index, formula) in problem.formulas.as_slice().iter().enumerate() {
            if !self.holds(signature, &formula.body, env) {
                return Some(index);
            }
        }
        None
    }
}
