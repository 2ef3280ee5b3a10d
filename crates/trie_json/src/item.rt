//! Items that JSON has a form of.

ghost use Rattle.std.specs.Prelude.{◌≡◌, Option, Some, IfOk, IsOk, option_and_then, refl};
ghost use Rattle.serde_json.specs.Data.{Data, boolean, number, unsigned};
ghost use Rattle.serde_json.specs.Find.{as_bool, as_number, as_u64};
ghost use Rattle.serde_json.specs.View.{view};

use nl_core::NoMemory;
use serde_json::Value;
use std::alloc::Global;

/// An item of a map that is written as JSON and read again.
pub trait JsonItem: Sized + Drop {
    /// What an item is in JSON.
    ghost written: { Self → Data };

    /// The item that this is in JSON, if it is one.
    ghost read: { Data → Option Self };

    /// The item in JSON.
    fn to_item(&self, alloc: Global) -> Result<Value, NoMemory>
        ensures { IfOk result (λ value. view value ≡ written self.now) };

    /// The item that the value is, or None where it is none.
    fn from_item(alloc: Global, value: &Value) -> Result<Option<Self>, NoMemory>
        ensures { IfOk result (λ item. item ≡ read (view value.now)) };

    /// What was written is read as an equal item.
    ghost back: { (x : Self) → read (written x) ≡ Some x };
}

/// A number. Only one that is held as an unsigned whole number is read.
impl JsonItem for u64 {
    ghost written = { λ x. number (unsigned x) };

    ghost read = { λ d. option_and_then as_u64 (as_number d) };

    fn to_item(&self, _alloc: Global) -> Result<Value, NoMemory>
        ensures value { IfOk result (λ value. view value ≡ number (unsigned self.now)) }
        ensures no_memory_taken { IsOk result }
    {
        Ok(Value::from(*self))
    }

    fn from_item(_alloc: Global, value: &Value) -> Result<Option<u64>, NoMemory>
        ensures item { IfOk result (λ item. item ≡ option_and_then as_u64 (as_number (view value.now))) }
        ensures no_memory_taken { IsOk result }
    {
        Ok(value.as_u64())
    }

    ghost back = { λ x. refl };
}

/// `true` or `false`.
impl JsonItem for bool {
    ghost written = { boolean };

    ghost read = { as_bool };

    fn to_item(&self, _alloc: Global) -> Result<Value, NoMemory>
        ensures value { IfOk result (λ value. view value ≡ boolean self.now) }
        ensures no_memory_taken { IsOk result }
    {
        Ok(Value::from(*self))
    }

    fn from_item(_alloc: Global, value: &Value) -> Result<Option<bool>, NoMemory>
        ensures item { IfOk result (λ item. item ≡ as_bool (view value.now)) }
        ensures no_memory_taken { IsOk result }
    {
        Ok(value.as_bool())
    }

    ghost back = { λ x. refl };
}
