ghost use Rattle.std.specs.Prelude.{◌≡◌, ◌↔◌, [], IfOk, IfSome, IsTrue, MatchOption, length, map};
ghost use Rattle.tf_core.specs.declared.ty.Ty.TheVariants.{Var, Apply};
ghost use Rattle.tf_types.specs.Numbers.{Denotes, Extends, IsNumber, AreNumbers, IsOneToOne, type_at, IsAbsent, HoldsParts};
ghost use Rattle.tf_types.specs.Nodes.{IsFormed, IsFormedBelow, IsApplication, given, with_argument};
ghost use Rattle.tf_types.specs.Instances.{IsInstance, IsGround};

use crate::node::{Asked, Node, TypeId};
use enc_base::NoMemory;
use indexmap::{IndexMap, IndexSet};
use std::alloc::Global;
use std::marker::Model;

/// Types with their numbers, each type once. Contracts see the list of the types: the type in
/// place n has the number n. Instances that were asked for are kept.
#[derive(Drop)]
pub struct TypeTable {
    nodes: IndexSet<Node>,
    instances: IndexMap<Asked, TypeId>,
    // for each number whether its type is noted to have no variables
    ground: Vec<bool>,
    alloc: Global,
}

impl Model for TypeTable {
    ghost use Rattle.std.specs.Prelude.{List};
    ghost use Rattle.tf_core.specs.declared.ty.Ty.{Ty};
    ghost use Rattle.tf_core.specs.contracts.ty.Ty as known;
    ghost use Rattle.std.specs.Coded.{codes};
    ghost use Rattle.tf_types.specs.Nodes.{types_of, AreNumbered};
    ghost use Rattle.tf_types.specs.Instances.{AreInstances, AreGround};

    ghost Value = { List Ty };

    ghost coded = { Prim.hlevel (codes, known.the_row.coded) };

    ghost view = { λ table. types_of table.nodes.keys };

    ghost invariant = { λ table. record {
      numbered : AreNumbered table.nodes.keys (types_of table.nodes.keys);
      instances : AreInstances (types_of table.nodes.keys) table.instances.entries;
      ground : AreGround (types_of table.nodes.keys) table.ground.items;
    } };
}

impl TypeTable {
    /// No types.
    pub fn new(alloc: Global) -> TypeTable
        ensures empty { result ≡ [] }
        ensures one_to_one { IsOneToOne result }
    {
        TypeTable {
            nodes: IndexSet::new(alloc),
            instances: IndexMap::new(alloc),
            ground: Vec::new(alloc),
            alloc,
        }
    }

    /// How many types there are: the numbers are those below.
    pub fn type_count(&self) -> usize
        ensures { result ≡ length self.now }
    {
        self.nodes.len()
    }

    /// Whether two numbers denote equal types.
    pub fn same(&self, a: TypeId, b: TypeId) -> bool
        requires left { IsNumber self.now a }
        requires right { IsNumber self.now b }
        ensures { IsTrue result ↔ (type_at self.now a ≡ type_at self.now b) }
    {
        self.each_type_stands_once();
        a == b
    }

    /// No type of a table stands twice.
    pub fn each_type_stands_once(&self)
        ensures { IsOneToOne self.now }
    {
        let _ = &self.nodes;
    }

    /// The number of the type variable, which is added if it is new.
    pub fn variable(&mut self, i: u32) -> Result<TypeId, NoMemory>
        ensures denoted { IfOk result (λ id. Denotes self.new id (Var i)) }
        ensures kept { Extends self.old self.new }
        ensures one_to_one { IsOneToOne self.new }
    {
        self.add(Node::Variable(i))
    }

    /// The number of the constructor applied to the types. What is new of them is added, and stays
    /// where the call ends for want of memory.
    pub fn apply(&mut self, constructor: u32, arguments: &[TypeId]) -> Result<TypeId, NoMemory>
        requires { AreNumbers self.old arguments.now }
        ensures denoted { IfOk result (λ id. Denotes self.new id
            (Apply constructor (map (type_at self.old) arguments.now))) }
        ensures kept { Extends self.old self.new }
        ensures one_to_one { IsOneToOne self.new }
    {
        let mut id = self.add(Node::Constructor(constructor))?;
        for argument in arguments {
            id = self.with_argument(id, *argument)?;
        }
        Ok(id)
    }

    /// The number of the constructor with no arguments.
    pub(crate) fn constructor(&mut self, constructor: u32) -> Result<TypeId, NoMemory>
        ensures denoted { IfOk result (λ id. Denotes self.new id (Apply constructor [])) }
        ensures kept { Extends self.old self.new }
        ensures one_to_one { IsOneToOne self.new }
    {
        self.add(Node::Constructor(constructor))
    }

    /// The number of a type with one argument more.
    pub(crate) fn with_argument(
        &mut self,
        function: TypeId,
        argument: TypeId,
    ) -> Result<TypeId, NoMemory>
        requires function { IsNumber self.old function }
        requires argument { IsNumber self.old argument }
        requires application { IsApplication (type_at self.old function) }
        ensures denoted { IfOk result (λ id. Denotes self.new id
            (with_argument (type_at self.old function) (type_at self.old argument))) }
        ensures kept { Extends self.old self.new }
        ensures one_to_one { IsOneToOne self.new }
    {
        self.add(Node::Applied(function, argument))
    }

    /// What is kept of the number.
    pub(crate) fn node(&self, id: TypeId) -> Node
        requires { IsNumber self.now id }
        ensures gives { given self.now result ≡ type_at self.now id }
        ensures formed { IsFormedBelow id.index self.now result }
    {
        self.nodes.as_slice()[id.index]
    }

    /// Whether the number is noted as that of a type without variables. All are, unless memory was
    /// wanting.
    pub(crate) fn is_ground(&self, id: TypeId) -> bool
        ensures { IsTrue result → IsGround (type_at self.now id) }
    {
        match self.ground.get(id.index) {
            Some(ground) => *ground,
            None => false,
        }
    }

    // whether the node's parts are noted to have no variables, nor is it one
    fn gives_ground(&self, node: Node) -> bool
        requires { IsFormed self.now node }
        ensures { IsTrue result → IsGround (given self.now node) }
    {
        match node {
            Node::Variable(_) => false,
            Node::Constructor(_) => true,
            Node::Applied(function, argument) => self.is_ground(function)
                && self.is_ground(argument),
        }
    }

    /// The instance that was asked for, if it was kept.
    pub(crate) fn kept_instance(&self, asked: Asked) -> Option<TypeId>
        ensures { IfSome result (IsInstance self.now asked) }
    {
        self.instances.get(&asked).copied()
    }

    /// Keeps an instance under what it was asked by.
    pub(crate) fn keep_instance(&mut self, asked: Asked, made: TypeId) -> Result<(), NoMemory>
        requires { IsInstance self.old asked made }
        ensures kept { self.new ≡ self.old }
    {
        self.instances.insert(asked, made)?;
        Ok(())
    }

    /// The allocator that the table was made with.
    pub(crate) fn allocator(&self) -> Global {
        self.alloc
    }

    /// Where a type with one argument more stands in a table, the type does, and the argument.
    pub(crate) fn each_part_stands(&self)
        ensures { HoldsParts self.now }
    {
        let _ = &self.nodes;
    }

    /// The number of the node, where what it gives is in the table.
    pub(crate) fn find_node(&self, node: Node) -> Option<TypeId>
        requires { IsFormed self.now node }
        ensures exact { MatchOption result (IsAbsent self.now (given self.now node))
            (λ id. Denotes self.now id (given self.now node)) }
    {
        match self.nodes.get_index_of(&node) {
            Some(index) => Some(TypeId { index }),
            None => None,
        }
    }

    // the number of the node, which is added if it is new, with whether its type has variables
    fn add(&mut self, node: Node) -> Result<TypeId, NoMemory>
        requires { IsFormed self.old node }
        ensures denoted { IfOk result (λ id. Denotes self.new id (given self.old node)) }
        ensures kept { Extends self.old self.new }
        ensures one_to_one { IsOneToOne self.new }
    {
        let ground = self.gives_ground(node);
        let id = self.insert(node)?;
        self.note_ground(id, ground)?;
        Ok(id)
    }

    // the number of the node, which is added if it is new
    fn insert(&mut self, node: Node) -> Result<TypeId, NoMemory>
        requires { IsFormed self.old node }
        ensures denoted { IfOk result (λ id. Denotes self.new id (given self.old node)) }
        ensures kept { Extends self.old self.new }
        ensures one_to_one { IsOneToOne self.new }
    {
        let (index, _) = self.nodes.insert_full(node)?;
        Ok(TypeId { index })
    }

    // notes whether the type has variables, unless it is noted or an earlier note is missing
    fn note_ground(&mut self, id: TypeId, ground: bool) -> Result<(), NoMemory>
        requires number { IsNumber self.old id }
        requires ground { IsTrue ground → IsGround (type_at self.old id) }
        ensures kept { self.new ≡ self.old }
    {
        if id.index == self.ground.len() {
            self.ground.push(ground)?;
        }
        Ok(())
    }
}
