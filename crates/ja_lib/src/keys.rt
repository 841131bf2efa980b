//! The keys of a table of the file.
ghost use Rattle.std.specs.Prelude.{◌≡◌, map, bytes_eq};
ghost use Rattle.std.specs.List.{list_any};
ghost use Rattle.toml.specs.Data.{get_member};
ghost use Rattle.toml.specs.View.{table_view};
ghost use Rattle.ja_lib.specs.File.{keys_among};
ghost use Rattle.ja_lib.specs.InnerReading.{seen_of};

use toml::Value;

/// The value at a key.
pub(crate) fn value_at<'a>(table: &'a toml::Table, key: &str) -> Option<&'a Value>
    ensures { seen_of result ≡ get_member key.now (table_view table.now) }
{
    table.get(key)
}

/// Whether each key of the table is one of these.
pub(crate) fn are_keys_among(table: &toml::Table, names: &[&str]) -> bool
    ensures { result ≡ keys_among (map (λ name. name.now) names.now) (table_view table.now) }
{
    'members: for (key, _value) in table.iter() {
        if !is_among(key.as_str(), names) {
            return false;
        }
    }
    true
}

fn is_among(key: &str, names: &[&str]) -> bool
    ensures { result ≡ list_any (λ name. bytes_eq key.now name.now) names.now }
{
    names.iter().any(|name| key == *name)
}
