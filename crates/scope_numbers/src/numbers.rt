//! The numbers of lists.

ghost use Rattle.std.specs.Prelude.{◌≡◌, ◌++◌, [], length, IfOk, OnOk};
ghost use Rattle.std.specs.List.{flat_map};
ghost use Rattle.std.specs.Option.{option_copied};
ghost use Rattle.scope_entries.specs.declared.item.ScopeItem.TheVariants.{Variable};
ghost use Rattle.scope_numbers.specs.Numbers.{lists_of_item, numbered, numbered_item, ranges_at, ranges_of_item};

use crate::item::{
    FunctionList, FunctionLists, NumberedItem, NumberedItems, NumberedScope, NumberedVariable,
};
use dwarf_rnglists::range::{AddressRangeLists, AddressRanges};
use scope_entries::item::ScopeItem;
use scope_ranges::scope::Scope;
use scope_variables::variable::ScopeVariable;
use std::alloc::{AllocError, Global};

/// The lists of a program, as far as its functions were walked.
#[derive(Drop)]
pub struct NumberedLists {
    /// The location lists, in the order of their numbers.
    pub lists: FunctionLists,
    /// The range lists, in the order of their numbers.
    pub ranges: AddressRangeLists,
}

impl NumberedLists {
    /// No lists. It takes no memory.
    pub fn new(alloc: Global) -> NumberedLists
        ensures lists { result.lists ≡ [] }
        ensures ranges { result.ranges ≡ [] }
    {
        NumberedLists {
            lists: FunctionLists::new(alloc),
            ranges: AddressRangeLists::new(alloc),
        }
    }

    /// What stands inside the function with an index, with the numbers of its lists, which go on behind those of the
    /// functions before. The time is linear in the items and in the ranges of the scopes. The error is out of memory.
    pub fn number(
        &mut self,
        alloc: Global,
        function: usize,
        scopes: &[Scope],
        items: &[ScopeItem],
    ) -> Result<NumberedItems, AllocError>
        ensures items { IfOk result (λ made. made
            ≡ numbered (length self.old.lists) (length self.old.ranges) items.now) }
        ensures lists { OnOk result (self.new.lists
            ≡ self.old.lists ++ flat_map (lists_of_item function) items.now) }
        ensures ranges { OnOk result (self.new.ranges
            ≡ self.old.ranges ++ flat_map (ranges_of_item scopes.now) items.now) }
    {
        let mut made = NumberedItems::new(alloc);
        for item in items {
            let numbered = self.number_item(alloc, function, scopes, *item)?;
            made.push(numbered)?;
        }
        Ok(made)
    }

    /// An item with the number of its list.
    fn number_item(
        &mut self,
        alloc: Global,
        function: usize,
        scopes: &[Scope],
        item: ScopeItem,
    ) -> Result<NumberedItem, AllocError>
        ensures item { IfOk result (λ made. made
            ≡ numbered_item (length self.old.lists) (length self.old.ranges) item) }
        ensures lists { OnOk result (self.new.lists ≡ self.old.lists ++ lists_of_item function item) }
        ensures ranges { OnOk result (self.new.ranges ≡ self.old.ranges ++ ranges_of_item scopes.now item) }
    {
        match item {
            ScopeItem::Variable(variable) => self.number_variable(function, &variable),
            ScopeItem::Open(index) => {
                let list = self.ranges.len() as u64;
                let ranges = ranges_at(alloc, scopes.get(index))?;
                self.ranges.push(ranges)?;
                Ok(NumberedItem::Open(NumberedScope { index, list }))
            }
            ScopeItem::End => Ok(NumberedItem::End),
        }
    }

    /// A variable with the number of its list.
    fn number_variable(
        &mut self,
        function: usize,
        variable: &ScopeVariable,
    ) -> Result<NumberedItem, AllocError>
        ensures item { IfOk result (λ made. made
            ≡ numbered_item (length self.old.lists) (length self.old.ranges) (Variable variable.now)) }
        ensures lists { OnOk result (self.new.lists
            ≡ self.old.lists ++ lists_of_item function (Variable variable.now)) }
        ensures ranges { OnOk result (self.new.ranges ≡ self.old.ranges) }
    {
        let node = variable.node;
        match variable.list {
            None => Ok(NumberedItem::Variable(NumberedVariable { node, list: None })),
            Some(list) => {
                let number = self.lists.len() as u64;
                self.lists.push(FunctionList { function, list })?;
                Ok(NumberedItem::Variable(NumberedVariable {
                    node,
                    list: Some(number),
                }))
            }
        }
    }
}

/// The ranges of a scope, if there is one.
fn ranges_at(alloc: Global, scope: Option<&Scope>) -> Result<AddressRanges, AllocError>
    ensures { IfOk result (λ ranges. ranges ≡ ranges_at (option_copied scope.entry)) }
{
    match scope {
        Some(scope) => scope.ranges.copy(),
        None => Ok(AddressRanges::new(alloc)),
    }
}
