//! The fields of one object, and the elements of one array.
ghost use Rattle.std.specs.Prelude.{◌≡◌, IsSome, Some, position, if◌then◌else◌};
ghost use Rattle.pv_base.specs.declared.Name.{Name as AnyName};
ghost use Rattle.pv_base.specs.Names as names;
ghost use Rattle.pv_values.specs.Heaps as heaps;

use crate::value::Value;
use pv_base::Name;
use sqlite_items::Items;

/// The value of the first field that has a name.
pub(crate) fn field_value(fields: &[(Name, Value)], name: Name) -> Option<Value>
    ensures { result ≡ heaps.field_value fields.now name }
{
    for field in fields {
        if name.0 == field.0.0 {
            return Some(field.1);
        }
    }
    None
}

/// The element at an index from 0 to below the length.
pub(crate) fn element(elements: &[Value], index: i128) -> Option<Value>
    ensures { result ≡ heaps.element elements.now index }
{
    if index < 0 || elements.len() as i128 <= index {
        return None;
    }
    Some(elements[index as usize])
}

/// The place of the first field that has a name.
fn place_of(fields: &[(Name, Value)], name: Name) -> Option<usize>
    ensures { result ≡ position (λ f. names.same_name name f.0) fields.now }
{
    fields.iter().position(|field| name.0 == field.0.0)
}

/// Puts a value in the place of that of the first field that has a name.
pub(crate) fn set_field(fields: &mut Items<(Name, Value)>, name: Name, value: Value)
    requires { IsSome (heaps.field_value fields.old name) }
    ensures { (other : AnyName) → heaps.field_value fields.new other
        ≡ (if names.same_name other name then Some value else heaps.field_value fields.old other) }
{
    if let Some(place) = place_of(fields.as_slice(), name) {
        fields.set(place, (name, value));
    }
}
