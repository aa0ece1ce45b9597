//! The JSON of bodies: parsed of a request, and formatted of a reply.

ghost use Rattle.std.specs.Prelude.{◌≡◌, ◌≢◌, List, ℕ, map, codes, string_bytes, IfOk, IfSome, IfNone, option_map};
ghost use Rattle.serde_json.specs.Data.{Data, string, array, object, member, no_members};
ghost use Rattle.serde_json.specs.View.{view, items_of};
ghost use Rattle.brk_model_http.specs.Bodies as spec;
ghost use Rattle.brk_http_engine.specs.Codes.{bytes_of_texts};
ghost use Rattle.brk_http_engine.specs.Words.{member_name_text};

use serde_json::{Value, json};
use std::alloc::{AllocError, Global};

fn texts_of_values(alloc: Global, values: &[Value]) -> Result<Option<Vec<String>>, AllocError>
    ensures found { IfOk result (λ o. IfSome o (λ v. map view values.now ≡ map string (map string_bytes v.items))) }
    ensures none { IfOk result (λ o. IfNone o ((ts : List (List ℕ)) → map view values.now ≢ map string ts)) }
{
    let mut texts = Vec::new(alloc);
    for value in values {
        match value.as_str() {
            Some(text) => texts.push(String::from_str(alloc, text)?)?,
            None => return Ok(None),
        }
    }
    Ok(Some(texts))
}

/// Parses a body as a JSON list of strings in UTF-8; returns `None` if it is anything else.
#[tactic(auto, using(crate::proofs::BodyLemmas::no_value))]
pub fn texts_of_body(alloc: Global, body: &[u8]) -> Result<Option<Vec<String>>, AllocError>
    ensures { IfOk result (λ found. option_map bytes_of_texts found ≡ spec.texts_of_body body.now) }
{
    let Ok(text) = str::from_utf8(body) else {
        return Ok(None);
    };
    let value = match Value::from_str(alloc, text) {
        Ok(value) => value,
        Err(error) => {
            if error.is_memory() {
                return Err(AllocError);
            }
            return Ok(None);
        }
    };
    match value.as_array() {
        Some(values) => texts_of_values(alloc, values),
        None => Ok(None),
    }
}

/// The name of the one member of the JSON object that is the body of a reply.
#[derive(Clone, Copy, Debug, PartialEq, Eq)]
pub enum MemberName {
    /// `ok`: the fields of the reply to an accepted row.
    Ok,
    /// `again`: the fields of the stored reply to a row that was accepted before.
    Again,
    /// `no`: the fields of a refusal.
    No,
    /// `view`: the records of a view.
    View,
    /// `error`: the text of a problem with a request, or of a fault of the desk.
    Error,
}

fn json_texts(alloc: Global, texts: &[String]) -> Result<Value, AllocError>
    ensures { IfOk result (λ v. view v ≡ spec.json_array_of_texts (map string_bytes texts.now)) }
{
    let mut list = Vec::new(alloc);
    for text in texts {
        list.push(Value::String(String::from_str(alloc, text.as_str())?))?;
    }
    Ok(Value::Array(list))
}

fn json_records(alloc: Global, records: &[Vec<String>]) -> Result<Value, AllocError>
    ensures { IfOk result (λ v. view v ≡ array (items_of (map spec.json_array_of_texts (map bytes_of_texts records.now)))) }
{
    let mut list = Vec::new(alloc);
    for record in records {
        list.push(json_texts(alloc, record)?)?;
    }
    Ok(Value::Array(list))
}

fn member_name(word: MemberName) -> &'static str
    ensures { result.now ≡ member_name_text word }
{
    match word {
        MemberName::Ok => "ok",
        MemberName::Again => "again",
        MemberName::No => "no",
        MemberName::View => "view",
        MemberName::Error => "error",
    }
}

// Returns the JSON object that has `value` as its one member.
fn json_member(alloc: Global, word: MemberName, value: Value) -> Result<Value, AllocError>
    ensures { IfOk result (λ v. view v ≡ object (member (member_name_text word) (view value) no_members)) }
{
    let name = member_name(word);
    json!(in alloc; {name: value})
}

/// Returns the JSON text `{"NAME":["TEXT",..]}`.
pub fn texts_object(alloc: Global, word: MemberName, texts: &[String]) -> Result<String, AllocError>
    ensures { IfOk result (λ s. string_bytes s ≡ spec.json_texts_object (member_name_text word) (map string_bytes texts.now)) }
{
    let list = json_texts(alloc, texts)?;
    let told = json_member(alloc, word, list)?;
    told.to_string(alloc)
}

/// Returns the JSON text `{"view":[["TEXT",..],..]}`.
pub fn json_view(alloc: Global, records: &[Vec<String>]) -> Result<String, AllocError>
    ensures { IfOk result (λ s. string_bytes s ≡ spec.json_records_object (codes "view") (map bytes_of_texts records.now)) }
{
    let list = json_records(alloc, records)?;
    let told = json_member(alloc, MemberName::View, list)?;
    told.to_string(alloc)
}

fn json_string(alloc: Global, text: &str) -> Result<Value, AllocError>
    ensures { IfOk result (λ v. view v ≡ string text.now) }
{
    Ok(Value::String(String::from_str(alloc, text)?))
}

/// Returns the JSON text `{"error":"TEXT"}`.
pub fn json_error(alloc: Global, words: &str) -> Result<String, AllocError>
    ensures { IfOk result (λ s. string_bytes s ≡ spec.json_error_object words.now) }
{
    let text = json_string(alloc, words)?;
    let told = json_member(alloc, MemberName::Error, text)?;
    told.to_string(alloc)
}
