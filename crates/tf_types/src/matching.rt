//! Types with variables matched against types with numbers.

ghost use Rattle.std.specs.Prelude.{◌≡◌, ◌↔◌, IfOk, IfSome, IsTrue, Some, None, if◌then◌else◌};
ghost use Rattle.tf_core.specs.declared.ty.Ty.TheVariants.{Var, Apply};
ghost use Rattle.tf_core.specs.Types.{instantiate};
ghost use Rattle.tf_types.specs.Numbers.{IsNumber, AreNumbers, type_at};
ghost use Rattle.tf_types.specs.Nodes.{IsFormed, given};
ghost use Rattle.tf_types.specs.Matching.{AreBound, IsMatch, Narrows};

use crate::node::{Node, TypeId};
use crate::table::TypeTable;
use enc_base::{List, NoMemory};
use tf_core::Ty;

impl TypeTable {
    /// The partial substitution, extended so that it makes each pattern the type of its number; or
    /// `None` where no extension does. A variable beyond the list stands for itself.
    pub fn matched(
        &self,
        patterns: &[Ty],
        ids: &[TypeId],
        bound: &[Option<TypeId>],
    ) -> Result<Option<List<Option<TypeId>>>, NoMemory>
        requires numbers { AreNumbers self.now ids.now }
        requires bound { AreBound self.now bound.now }
        ensures exact { IfOk result (IsMatch self.now bound.now patterns.now ids.now) }
        ensures numbers { IfOk result (λ found. IfSome found (AreBound self.now)) }
    {
        let mut extended = bound.to_vec(self.allocator())?;
        if self.match_types(patterns, ids, extended.as_mut_slice()) {
            Ok(Some(List::from_vec(extended)))
        } else {
            Ok(None)
        }
    }

    /// The same in place, without memory: whether there is an extension, which is then what is
    /// bound. Where there is none, some variables may be bound all the same.
    pub fn match_types(&self, patterns: &[Ty], ids: &[TypeId], bound: &mut [Option<TypeId>]) -> bool
        requires numbers { AreNumbers self.now ids.now }
        requires bound { AreBound self.now bound.old }
        ensures exact { IsMatch self.now bound.old patterns.now ids.now
            (if result then Some bound.new else None) }
        ensures numbers { AreBound self.now bound.new }
    {
        if patterns.len() != ids.len() {
            return false;
        }
        for (i, pattern) in patterns.iter().enumerate() {
            if !self.match_type(pattern, ids[i], bound) {
                return false;
            }
        }
        true
    }

    // matches one type, in place
    #[cycle(match_type)]
    fn match_type(&self, pattern: &Ty, id: TypeId, bound: &mut [Option<TypeId>]) -> bool
        requires number { IsNumber self.now id }
        requires bound { AreBound self.now bound.old }
        ensures exact { Narrows self.now bound.old
            (λ instances. instantiate instances pattern.now ≡ type_at self.now id)
            result bound.new }
        ensures numbers { AreBound self.now bound.new }
    {
        match pattern {
            Ty::Var(i) => self.bind(*i, id, bound),
            Ty::Apply(c, arguments) => self.match_applied(*c, arguments.as_slice(), id, bound),
        }
    }

    // matches a constructor that is applied to types, the last of them first
    #[cycle(match_type)]
    fn match_applied(
        &self,
        constructor: u32,
        patterns: &[Ty],
        id: TypeId,
        bound: &mut [Option<TypeId>],
    ) -> bool
        requires number { IsNumber self.now id }
        requires bound { AreBound self.now bound.old }
        ensures exact { Narrows self.now bound.old
            (λ instances. instantiate instances (Apply constructor patterns.now)
            ≡ type_at self.now id)
            result bound.new }
        ensures numbers { AreBound self.now bound.new }
    {
        let mut at = id;
        let mut left = patterns.len();
        while left > 0 {
            left -= 1;
            match self.node(at) {
                Node::Applied(function, argument) => {
                    if !self.match_type(&patterns[left], argument, bound) {
                        return false;
                    }
                    at = function;
                }
                _ => return false,
            }
        }
        self.is_node(at, Node::Constructor(constructor))
    }

    // binds a free variable; a bound one has the type already, or there is no match
    fn bind(&self, i: u32, id: TypeId, bound: &mut [Option<TypeId>]) -> bool
        requires number { IsNumber self.now id }
        requires bound { AreBound self.now bound.old }
        ensures exact { Narrows self.now bound.old
            (λ instances. instantiate instances (Var i) ≡ type_at self.now id) result bound.new }
        ensures numbers { AreBound self.now bound.new }
    {
        let place = i as usize;
        if place >= bound.len() {
            return self.is_node(id, Node::Variable(i));
        }
        match bound[place] {
            Some(other) => self.same(other, id),
            None => {
                bound[place] = Some(id);
                true
            }
        }
    }

    // whether the number denotes what the node gives
    fn is_node(&self, id: TypeId, node: Node) -> bool
        requires number { IsNumber self.now id }
        requires formed { IsFormed self.now node }
        ensures { IsTrue result ↔ (type_at self.now id ≡ given self.now node) }
    {
        self.each_type_stands_once();
        self.node(id) == node
    }
}
