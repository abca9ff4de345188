ghost use Rattle.std.specs.Prelude.{◌≡◌, ◌≤◌, ◌<◌, ◌^◌, ◌↔◌, [], length, None, IfSome, IsTrue};
ghost use Rattle.tf_core.specs.Counts.{depth, most_types, most_terms};
ghost use Rattle.tf_core.specs.Models.{IsSatisfied};
ghost use Rattle.tf_core.specs.Typing.{IsFormula, IsProblem};
ghost use Rattle.tf_core.specs.TypedTables.{reading, IsWellFormed, AreModel};
ghost use Rattle.tf_models.specs.Reading.{tables};
ghost use Rattle.tf_models.specs.Evaluation.{IsReady};
ghost use Rattle.tf_models.specs.FirstFalse.{IsAsStated, IsFirstFalse};

use crate::env::Env;
use crate::occurring::used_types;
use crate::structure::TypedStructure;
use tf_core::{Problem, Role, Signature, Stated};

impl TypedStructure {
    /// The index of the first formula of a problem that is a false hypothesis or a true conjecture,
    /// or `None` exactly where the structure is a model. The environment's lists are empty before
    /// and after. It takes no memory.
    pub fn first_false(&self, problem: &Problem, env: &mut Env) -> Option<usize>
        requires well_formed { IsWellFormed problem.now.signature (tables self.now) }
        requires few { length self.now.sizes < 2 ^ 32 }
        requires typed { IsProblem problem.now }
        requires members { env.old.members ≡ [] }
        requires elements { env.old.elements ≡ [] }
        requires types { most_types problem.now ≤ env.old.members_room }
        requires terms { most_terms problem.now ≤ env.old.elements_room }
        ensures exact { (result ≡ None) ↔ AreModel problem.now (tables self.now) }
        ensures least { IfSome result (IsFirstFalse (reading problem.now.signature (tables self.now)) problem.now.formulas) }
        ensures kept { env.new ≡ env.old }
    {
        for (index, stated) in problem.formulas.as_slice().iter().enumerate() {
            if !self.is_as_stated(&problem.signature, stated, env) {
                return Some(index);
            }
        }
        None
    }

    // whether a formula is satisfied, or isn't, as its role says
    fn is_as_stated(&self, signature: &Signature, stated: &Stated, env: &mut Env) -> bool
        requires ready { IsReady signature.now self.now }
        requires typed { IsFormula signature.now stated.now.type_variables [] stated.now.body }
        requires members { env.old.members ≡ [] }
        requires elements { env.old.elements ≡ [] }
        requires types { stated.now.type_variables ≤ env.old.members_room }
        requires terms { depth stated.now.body ≤ env.old.elements_room }
        ensures exact { IsTrue result ↔ IsAsStated (reading signature.now (tables self.now)) stated.now }
        ensures kept { env.new ≡ env.old }
    {
        let satisfied = self.satisfies(signature, stated, env);
        env.set_types(&[]);
        match stated.role {
            Role::Hypothesis => satisfied,
            Role::Conjecture => !satisfied,
        }
    }

    // whether a formula is true for all members of its type variables; those that don't occur have
    // the first one. The environment's members are some tuple of them behind it
    fn satisfies(&self, signature: &Signature, stated: &Stated, env: &mut Env) -> bool
        requires ready { IsReady signature.now self.now }
        requires typed { IsFormula signature.now stated.now.type_variables [] stated.now.body }
        requires elements { env.old.elements ≡ [] }
        requires types { stated.now.type_variables ≤ env.old.members_room }
        requires terms { depth stated.now.body ≤ env.old.elements_room }
        ensures exact { IsTrue result ↔ IsSatisfied (reading signature.now (tables self.now)) stated.now }
        ensures kept { env.new ≡ record env.old { members = env.new.members } }
    {
        let count = self.sizes.as_slice().len() as u32;
        let used = used_types(&stated.body, stated.type_variables);
        env.first_types(stated.type_variables);
        while self.holds(signature, &stated.body, env) {
            if !env.next_types(count, &stated.body, used) {
                return true;
            }
        }
        false
    }
}
