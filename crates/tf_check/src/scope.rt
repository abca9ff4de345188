//! The names that are bound at a place, with the numbers of types.

ghost use Rattle.std.specs.Prelude.{◌≡◌, ◌↔◌, ◌-◌, ◌<◌, ◌≤◌, ◌++◌, [], ◌∷◌, length, map, drop, IsTrue, IfOk, OnOk};
ghost use Rattle.tf_core.specs.declared.ty.Ty.TheVariants.{Apply};
ghost use Rattle.tf_core.specs.Types.{instantiate};
ghost use Rattle.tf_types.specs.Nodes.{denoted, NamesBelow};
ghost use Rattle.tf_types.specs.Numbers.{IsNumber, AreNumbers, type_at};
ghost use Rattle.tf_check.specs.Scope.{TypeVariable, TermVariable, meaning, type_variables};
ghost use Rattle.tf_check.specs.Limits.{most_nodes};
ghost use Rattle.tf_check.specs.Bound.{meaning_of, MeansNumber, HasNumbers, numbered_types, symbol_at, Grows, Keeps};

use enc_base::NoMemory;
use std::alloc::Global;
use std::marker::Model;
use tf_core::Ty;
use tf_types::{TypeId, TypeNode, TypeTable};

/// A bound name: a type variable, or a term variable with the number of its type.
#[derive(Drop)]
struct Binding<'a> {
    name: &'a [u8],
    ty: Option<TypeId>,
}

/// What a name stands for.
#[derive(Clone, Copy)]
pub(crate) enum Meaning {
    Unbound,
    /// A type variable, numbered from the outermost.
    OfType(u32),
    /// A term variable, numbered from the innermost, with the number of its type.
    OfTerm(u32, TypeId),
}

/// The numbers of the types of a symbol. Those of its arguments are one type, of which they are the
/// arguments: so the instance of them all is looked up at once.
#[derive(Clone, Copy, Drop)]
pub(crate) struct SymbolNumbers {
    pub(crate) arguments: TypeId,
    pub(crate) result: Option<TypeId>,
}

/// The bound names, as a stack: the innermost is the last. With them go the types that have numbers,
/// and the numbers of the types of the symbols, in the order of the signature.
#[derive(Drop)]
pub(crate) struct Scope<'a> {
    bindings: Vec<Binding<'a>>,
    bound_types: u32,
    types: TypeTable,
    symbols: Vec<SymbolNumbers>,
}

impl<'a> Model for Scope<'a> {
    ghost use Rattle.tf_check.specs.Bound.{Scoped, scoped_as, AreScoped};
    ghost use Rattle.tf_core.specs.contracts.ty.Ty as known;
    ghost use Rattle.std.specs.Coded.{codes};

    ghost Value = { Scoped };

    ghost coded = { Prim.hlevel (codes, known.the_row.coded) };

    ghost view = { λ scope. scoped_as scope.types scope.bindings.items scope.symbols.items };

    ghost invariant = { λ scope.
        AreScoped scope.types scope.bound_types scope.bindings.items scope.symbols.items };
}

impl<'a> Scope<'a> {
    /// No names, and no symbols.
    pub(crate) fn new(alloc: Global) -> Scope<'a>
        ensures names { result.names ≡ [] }
        ensures symbols { result.symbols ≡ [] }
    {
        Scope {
            bindings: Vec::new(alloc),
            bound_types: 0,
            types: TypeTable::new(alloc),
            symbols: Vec::new(alloc),
        }
    }

    /// How many names are bound.
    pub(crate) fn len(&self) -> usize
        ensures { result ≡ length self.now.names }
    {
        self.bindings.len()
    }

    /// How many type variables are bound.
    pub(crate) fn type_variables(&self) -> u32
        ensures { result ≡ type_variables self.now.names }
    {
        self.bound_types
    }

    /// Binds a type variable.
    pub(crate) fn bind_type(&mut self, name: &'a [u8]) -> Result<(), NoMemory>
        requires { length self.old.names < most_nodes }
        ensures { OnOk result (self.new
            ≡ record self.old { names = TypeVariable name.now ∷ self.old.names }) }
    {
        self.bindings.push(Binding { name, ty: None })?;
        self.bound_types += 1;
        Ok(())
    }

    /// Binds a term variable of the type, which gets a number.
    pub(crate) fn bind_term(&mut self, name: &'a [u8], ty: &Ty) -> Result<(), NoMemory>
        requires { length self.old.names < most_nodes }
        ensures names { OnOk result (self.new.names ≡ TermVariable name.now ty.now ∷ self.old.names) }
        ensures grows { OnOk result (Grows self.old self.new) }
    {
        let number = self.number_of(ty)?;
        self.bindings.push(Binding {
            name,
            ty: Some(number),
        })?;
        Ok(())
    }

    /// Unbinds all names but the outermost `len`.
    pub(crate) fn cut(&mut self, len: usize)
        ensures { self.new
            ≡ record self.old { names = drop (length self.old.names - len) self.old.names } }
    {
        while self.len() > len {
            self.unbind();
        }
    }

    /// Unbinds the innermost name.
    fn unbind(&mut self)
        ensures { self.new ≡ record self.old { names = drop 1 self.old.names } }
    {
        if let Some(binding) = self.bindings.pop() {
            if binding.ty.is_none() {
                self.bound_types -= 1;
            }
        }
    }

    /// What the name stands for. The search goes from the innermost name outwards: as many steps as
    /// names are bound. In a file that is read these are 400 at most, since the nesting limit counts
    /// each bound variable in whose scope a word stands.
    pub(crate) fn meaning(&self, name: &[u8]) -> Meaning
        ensures exact { meaning_of self.now.types result ≡ meaning self.now.names name.now }
        ensures number { MeansNumber self.now.types result }
    {
        let mut types = self.bound_types;
        let mut terms = 0;
        let mut left = self.bindings.len();
        while left > 0 {
            left -= 1;
            let binding = &self.bindings[left];
            match binding.ty {
                None => {
                    types -= 1;
                    if name == binding.name {
                        return Meaning::OfType(types);
                    }
                }
                Some(ty) => {
                    if name == binding.name {
                        return Meaning::OfTerm(terms, ty);
                    }
                    terms += 1;
                }
            }
        }
        Meaning::Unbound
    }

    /// Adds a symbol, behind the others, by the numbers of its types.
    pub(crate) fn push_symbol(&mut self, numbers: SymbolNumbers) -> Result<(), NoMemory>
        requires { HasNumbers self.old.types numbers }
        ensures { OnOk result (self.new ≡ record self.old {
          symbols = self.old.symbols ++ numbered_types self.old.types numbers ∷ [];
        }) }
    {
        self.symbols.push(numbers)?;
        Ok(())
    }

    /// The numbers of the types of the symbol at the place.
    pub(crate) fn symbol(&self, place: usize) -> SymbolNumbers
        requires { place < length self.now.symbols }
        ensures types { numbered_types self.now.types result ≡ symbol_at self.now place }
        ensures numbers { HasNumbers self.now.types result }
    {
        self.symbols[place]
    }

    /// The number of the type.
    pub(crate) fn number_of(&mut self, ty: &Ty) -> Result<TypeId, NoMemory>
        ensures exact { IfOk result (λ id. type_at self.new.types id ≡ ty.now) }
        ensures number { IfOk result (IsNumber self.new.types) }
        ensures kept { Keeps self.old self.new }
    {
        self.types.number_of(ty)
    }

    /// The number of the types as one, under the constructor 0.
    pub(crate) fn number_of_list(&mut self, types: &[TypeId]) -> Result<TypeId, NoMemory>
        requires { AreNumbers self.old.types types.now }
        ensures exact { IfOk result (λ id. type_at self.new.types id
            ≡ Apply 0 (map (type_at self.old.types) types.now)) }
        ensures number { IfOk result (IsNumber self.new.types) }
        ensures kept { Keeps self.old self.new }
    {
        self.types.apply(0, types)
    }

    /// The number of the type, seen at the types for its variables.
    pub(crate) fn instance(&mut self, id: TypeId, types: &[TypeId]) -> Result<TypeId, NoMemory>
        requires number { IsNumber self.old.types id }
        requires numbers { AreNumbers self.old.types types.now }
        ensures exact { IfOk result (λ made. type_at self.new.types made
            ≡ instantiate (map (type_at self.old.types) types.now) (type_at self.old.types id)) }
        ensures number { IfOk result (IsNumber self.new.types) }
        ensures kept { Keeps self.old self.new }
    {
        self.types.instance(id, types)
    }

    /// What the number stands for, over smaller numbers.
    pub(crate) fn node_at(&self, id: TypeId) -> Result<TypeNode, NoMemory>
        requires { IsNumber self.now.types id }
        ensures denoted { IfOk result (λ node. denoted self.now.types node ≡ type_at self.now.types id) }
        ensures below { IfOk result (NamesBelow id.index) }
    {
        self.types.node_at(id)
    }

    /// Whether two numbers denote equal types.
    pub(crate) fn same(&self, a: TypeId, b: TypeId) -> bool
        requires left { IsNumber self.now.types a }
        requires right { IsNumber self.now.types b }
        ensures { IsTrue result ↔ (type_at self.now.types a ≡ type_at self.now.types b) }
    {
        self.types.same(a, b)
    }

    /// The type that the number denotes, as a tree.
    pub(crate) fn tree_of(&self, id: TypeId) -> Result<Ty, NoMemory>
        requires { IsNumber self.now.types id }
        ensures { IfOk result (λ ty. ty ≡ type_at self.now.types id) }
    {
        self.types.tree_of(id)
    }
}
