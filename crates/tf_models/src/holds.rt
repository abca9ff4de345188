ghost use Rattle.std.specs.Prelude.{◌≡◌, ◌<◌, ◌≤◌, ◌+◌, map, length};
ghost use Rattle.enc_base.specs.Quantifiers.{all_below, some_below};
ghost use Rattle.tf_core.specs.Counts.{depth, greatest};
ghost use Rattle.tf_models.specs.Evaluation.{true_in, true_with, all_true, some_true, size_in, IsReady, IsTrueOrFalse, AreTrueOrFalse, IsBinder};

use crate::env::Env;
use crate::members::Members;
use crate::structure::TypedStructure;
use tf_core::{Formula, Signature, Ty};

impl TypedStructure {
    /// Whether a formula is true under the environment, which stays as it was. It takes no memory,
    /// and looks at a connective's second part only where the first leaves it open.
    #[cycle(holds)]
    pub fn holds(&self, signature: &Signature, formula: &Formula, env: &mut Env) -> bool
        requires ready { IsReady signature.now self.now }
        requires formula { IsTrueOrFalse signature.now self.now env.old formula.now }
        requires room { length env.old.elements + depth formula.now ≤ env.old.elements_room }
        ensures exact { result ≡ true_in signature.now self.now env.old formula.now }
        ensures kept { env.new ≡ env.old }
    {
        match formula {
            Formula::True => true,
            Formula::False => false,
            Formula::Atom(p, types, terms) => {
                self.entry(signature, *p, terms.as_slice(), types.as_slice(), env) == 1
            }
            Formula::Equal(_, left, right) => {
                let left = self.value(signature, left, env);
                let right = self.value(signature, right, env);
                left == right
            }
            Formula::Not(a) => !self.holds(signature, a.get(), env),
            Formula::And(parts) => self.all_hold(signature, parts.as_slice(), env),
            Formula::Or(parts) => self.some_holds(signature, parts.as_slice(), env),
            Formula::Implies(premise, conclusion) => {
                if !self.holds(signature, premise.get(), env) {
                    return true;
                }
                self.holds(signature, conclusion.get(), env)
            }
            Formula::If(a, b) => {
                if self.holds(signature, a.get(), env) {
                    return true;
                }
                !self.holds(signature, b.get(), env)
            }
            Formula::Iff(a, b) => {
                let first = self.holds(signature, a.get(), env);
                let second = self.holds(signature, b.get(), env);
                first == second
            }
            Formula::Xor(a, b) => {
                let first = self.holds(signature, a.get(), env);
                let second = self.holds(signature, b.get(), env);
                first != second
            }
            Formula::Nand(a, b) => {
                if !self.holds(signature, a.get(), env) {
                    return true;
                }
                !self.holds(signature, b.get(), env)
            }
            Formula::Nor(a, b) => {
                if self.holds(signature, a.get(), env) {
                    return false;
                }
                !self.holds(signature, b.get(), env)
            }
            Formula::ForAll(ty, body) => self.holds_of_each(signature, body.get(), ty, env),
            Formula::Exists(ty, body) => self.holds_of_some(signature, body.get(), ty, env),
        }
    }

    // whether each part holds
    #[cycle(holds)]
    fn all_hold(&self, signature: &Signature, parts: &[Formula], env: &mut Env) -> bool
        requires ready { IsReady signature.now self.now }
        requires parts { AreTrueOrFalse signature.now self.now env.old parts.now }
        requires room { length env.old.elements + greatest (map depth parts.now) ≤ env.old.elements_room }
        ensures exact { result ≡ all_true signature.now self.now env.old parts.now }
        ensures kept { env.new ≡ env.old }
    {
        for part in parts {
            if !self.holds(signature, part, env) {
                return false;
            }
        }
        true
    }

    // whether some part holds
    #[cycle(holds)]
    fn some_holds(&self, signature: &Signature, parts: &[Formula], env: &mut Env) -> bool
        requires ready { IsReady signature.now self.now }
        requires parts { AreTrueOrFalse signature.now self.now env.old parts.now }
        requires room { length env.old.elements + greatest (map depth parts.now) ≤ env.old.elements_room }
        ensures exact { result ≡ some_true signature.now self.now env.old parts.now }
        ensures kept { env.new ≡ env.old }
    {
        for part in parts {
            if self.holds(signature, part, env) {
                return true;
            }
        }
        false
    }

    // whether a binder's body holds of each element of a type's member
    #[cycle(holds)]
    fn holds_of_each(&self, signature: &Signature, body: &Formula, ty: &Ty, env: &mut Env) -> bool
        requires ready { IsReady signature.now self.now }
        requires binder { IsBinder signature.now self.now env.old ty.now body.now }
        requires room { length env.old.elements + depth body.now + 1 ≤ env.old.elements_room }
        ensures exact { result ≡ all_below (size_in self.now env.old.members ty.now) (true_with signature.now self.now env.old body.now) }
        ensures kept { env.new ≡ env.old }
    {
        let size = self.size_of(signature, ty, Members::Listed(env.members()));
        for element in 0..size {
            if !self.holds_with(signature, body, ty, element, env) {
                return false;
            }
        }
        true
    }

    // whether a binder's body holds of some element of a type's member
    #[cycle(holds)]
    fn holds_of_some(&self, signature: &Signature, body: &Formula, ty: &Ty, env: &mut Env) -> bool
        requires ready { IsReady signature.now self.now }
        requires binder { IsBinder signature.now self.now env.old ty.now body.now }
        requires room { length env.old.elements + depth body.now + 1 ≤ env.old.elements_room }
        ensures exact { result ≡ some_below (size_in self.now env.old.members ty.now) (true_with signature.now self.now env.old body.now) }
        ensures kept { env.new ≡ env.old }
    {
        let size = self.size_of(signature, ty, Members::Listed(env.members()));
        for element in 0..size {
            if self.holds_with(signature, body, ty, element, env) {
                return true;
            }
        }
        false
    }

    // whether a binder's body holds of an element
    #[cycle(holds)]
    fn holds_with(
        &self,
        signature: &Signature,
        body: &Formula,
        ty: &Ty,
        element: u32,
        env: &mut Env,
    ) -> bool
        requires ready { IsReady signature.now self.now }
        requires binder { IsBinder signature.now self.now env.old ty.now body.now }
        requires room { length env.old.elements + depth body.now + 1 ≤ env.old.elements_room }
        requires below { element < size_in self.now env.old.members ty.now }
        ensures exact { result ≡ true_with signature.now self.now env.old body.now element }
        ensures kept { env.new ≡ env.old }
    {
        env.bind(element);
        let held = self.holds(signature, body, env);
        env.unbind();
        held
    }
}
