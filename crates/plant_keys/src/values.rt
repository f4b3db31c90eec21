ghost use Rattle.std.specs.List.{list_all};
ghost use Rattle.std.specs.Prelude.{◌≡◌, option_map, map};
ghost use Rattle.plant_keys.specs.Code.{views, is_element};
ghost use Rattle.plant_keys.specs.Readers.{has, elements_of, is_list_of, is_within, text_of, text_at, tables_of, tables_at};
ghost use Rattle.toml.specs.Data.{get};
ghost use Rattle.toml.specs.View.{view};

use toml::Value;

/// The value at a key of a table; none where there is none, or no table.
pub fn value_at<'a>(table: &'a Value, key: &str) -> Option<&'a Value>
    ensures { option_map (λ v. view v.now) result ≡ get key.now (view table.now) }
{
    table.get(key)
}

/// Whether a table has the key.
pub fn has(table: &Value, key: &str) -> bool
    ensures { result ≡ has key.now (view table.now) }
{
    value_at(table, key).is_some()
}

/// The text of a value, empty where it is none.
pub fn text_of(value: &Value) -> &str
    ensures { result.now ≡ text_of (view value.now) }
{
    match value.as_str() {
        Some(text) => text,
        None => "",
    }
}

/// The text at a key, empty where there is none.
pub fn text_at<'a>(table: &'a Value, key: &str) -> &'a str
    ensures { result.now ≡ text_at key.now (view table.now) }
{
    match value_at(table, key) {
        Some(value) => text_of(value),
        None => "",
    }
}

/// The elements of a value that is a list, and none of any other.
pub fn elements_of(value: &Value) -> &[Value]
    ensures { views result.now ≡ elements_of (view value.now) }
{
    match value.as_array() {
        Some(values) => values.as_slice(),
        None => &[],
    }
}

/// What each element of a list is.
#[derive(Clone, Copy)]
pub(crate) enum Element {
    /// A whole number.
    Number,
    /// A table.
    Table,
}

/// Whether a value is an element of this kind.
fn is_element(element: Element, value: &Value) -> bool
    ensures { result ≡ is_element element (view value.now) }
{
    match element {
        Element::Number => value.is_integer(),
        Element::Table => value.is_table(),
    }
}

/// Whether all these values are elements of this kind.
fn are_elements(element: Element, values: &[Value]) -> bool
    ensures { result ≡ list_all (λ v. is_element element (view v)) values.now }
{
    for value in values {
        if !is_element(element, value) {
            return false;
        }
    }
    true
}

/// Whether a value is a list of elements of this kind.
pub(crate) fn is_list_of(element: Element, value: &Value) -> bool
    ensures { result ≡ is_list_of (is_element element) (view value.now) }
{
    match value.as_array() {
        Some(values) => are_elements(element, values.as_slice()),
        None => false,
    }
}

/// The tables of a value that is a list of tables, and none of any other.
pub fn tables_of(value: &Value) -> &[Value]
    ensures { views result.now ≡ tables_of (view value.now) }
{
    if is_list_of(Element::Table, value) {
        elements_of(value)
    } else {
        &[]
    }
}

/// The tables of the list at a key, none where there is no list of tables.
pub fn tables_at<'a>(table: &'a Value, key: &str) -> &'a [Value]
    ensures { views result.now ≡ tables_at key.now (view table.now) }
{
    match value_at(table, key) {
        Some(value) => tables_of(value),
        None => &[],
    }
}

/// Whether a whole number is within limits.
pub(crate) fn is_within(number: i64, least: u64, most: u64) -> bool
    ensures { result ≡ is_within least most number }
{
    match u64::try_from(number) {
        Ok(number) => least <= number && number <= most,
        Err(_) => false,
    }
}
