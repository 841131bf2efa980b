//! The one method of a class file of the first form.

ghost use Rattle.std.specs.Prelude.{◌≡◌, ◌<◌, ◌^◌, ℕ, List, length, IsTrue, IfOk, IsErrOf};
ghost use Rattle.ja_class.specs.InnerReading.{Gives, has_numbers, has_names, is_program_name, program_name, runnable_code, method_in, method_from_bytes};
ghost use Rattle.ja_class.specs.declared.first.FirstMethod.{FirstMethod};
ghost use Rattle.ja_class.specs.FirstForm.{IsFirstForm};
ghost use Rattle.ja_class.specs.InnerViews.{code_view, entries, file_view};

use super::code::code_of;
use super::constant::Constant;
use super::frame::is_runnable;
use super::layout::{ClassFile, CodeAttribute, file_of};
use super::names::{allows_all, class_name, is_text, text_of};
use super::{FirstCode, FirstFault, FirstMethod};
use ja_base::Name;
use ja_base::access_flags::{ABSTRACT, INTERFACE};
use std::alloc::Global;

/// Whether the version, the flags and the code's length are those of the first form.
#[tactic(auto, unfolding(crate::specs::InnerReading::has_numbers))]
fn has_numbers(file: &ClassFile<'_>) -> bool
    ensures value { result ≡ has_numbers (file_view file.now) }
    ensures short { IsTrue result → length file.now.method.code.code.now < 2 ^ 16 }
{
    let flags = file.access_flags;
    file.major_version >= 45
        && file.major_version <= 52
        && flags & INTERFACE == 0
        && flags & ABSTRACT == 0
        && file.method.code.code.len() < 65536
}

/// Whether the names of superclass, method and attribute are those of the first form.
#[tactic(auto, unfolding(crate::specs::InnerReading::has_names))]
fn has_names(file: &ClassFile<'_>) -> bool
    ensures { result ≡ has_names (file_view file.now) }
{
    let pool = file.pool.as_slice();
    let method = &file.method;
    is_text(class_name(pool, file.super_class), b"java/lang/Object")
        && is_text(text_of(pool, method.name_index), b"main")
        && is_text(
            text_of(pool, method.descriptor_index),
            b"([Ljava/lang/String;)V",
        )
        && is_text(text_of(pool, method.code.name_index), b"Code")
}

/// Whether a name may be that of a class of the program.
#[tactic(auto, unfolding(crate::specs::InnerReading::is_program_name))]
fn is_program_name(name: &[u8]) -> bool
    ensures { result ≡ is_program_name name.now }
{
    !name.starts_with(b"[") && !name.starts_with(b"java/") && name != b"demo/Taint".as_slice()
}

/// The name of the class with an index, which must be one of the program.
#[tactic(auto, unfolding(crate::specs::InnerReading::program_name))]
fn program_name<'a>(pool: &[Constant<'a>], index: u16) -> Result<&'a [u8], FirstFault>
    ensures { Gives (λ x. x.now) result (program_name (entries pool.now) index) }
{
    match class_name(pool, index) {
        Some(name) if is_program_name(name) => Ok(name),
        _ => Err(FirstFault::Unbuilt),
    }
}

/// The instructions of a Code attribute, which must run.
#[tactic(auto, unfolding(crate::specs::InnerReading::runnable_code))]
fn runnable_code(
    alloc: Global,
    pool: &[Constant<'_>],
    attribute: &CodeAttribute<'_>,
) -> Result<FirstCode, FirstFault>
    requires { length attribute.now.code.now < 2 ^ 16 }
    ensures { Gives (λ x. x) result (runnable_code (entries pool.now) (code_view attribute.now)) }
{
    let code = code_of(alloc, pool, attribute.code)?;
    if !is_runnable(attribute.max_locals, attribute.max_stack, code.as_slice()) {
        return Err(FirstFault::Unbuilt);
    }
    Ok(code)
}

/// The method of a class file.
#[tactic(auto, unfolding(crate::specs::InnerReading::method_in))]
fn method_in(alloc: Global, file: &ClassFile<'_>) -> Result<FirstMethod, FirstFault>
    ensures { Gives (λ x. x) result (method_in (file_view file.now)) }
{
    let pool = file.pool.as_slice();
    if !has_numbers(file) || !has_names(file) || !allows_all(pool) {
        return Err(FirstFault::Unbuilt);
    }
    let name = program_name(pool, file.this_class)?;
    let code = runnable_code(alloc, pool, &file.method.code)?;
    Ok(FirstMethod {
        class: Name::of(alloc, name)?,
        file: Name::from_vec(Vec::new(alloc)),
        locals: u32::from(file.method.code.max_locals),
        stack: u32::from(file.method.code.max_stack),
        code,
    })
}

/// The method that the bytes spell.
#[tactic(auto, unfolding(crate::specs::InnerReading::method_from_bytes))]
fn method_from_bytes(alloc: Global, bytes: &[u8]) -> Result<FirstMethod, FirstFault>
    ensures { Gives (λ x. x) result (method_from_bytes bytes.now) }
{
    let file = file_of(alloc, bytes)?;
    method_in(alloc, &file)
}

/// Reads a class file of the first form (JVM specification, 4.1 to 4.7.3): one class with one
/// method `main([Ljava/lang/String;)V`, whose instructions only move texts to source and sink
/// of `demo/Taint`. All of the bytes must be the class file.
///
/// The result's `file` is empty. `Unbuilt` says that the bytes are no class file of the first
/// form, and `Memory` that there was no memory.
pub fn read_first(alloc: Global, bytes: &[u8]) -> Result<FirstMethod, FirstFault>
    // What is read is the method of a class file of the first form, which the bytes spell.
    ensures found { IfOk result (λ m. IsFirstForm bytes.now m) }
    // The bytes spell no other method.
    ensures only { IfOk result (λ m. (n : FirstMethod) → IsFirstForm bytes.now n → n ≡ m) }
    // What is refused is no class file of the first form.
    ensures unbuilt { IsErrOf result FirstFault.Unbuilt → (n : FirstMethod) → IsFirstForm bytes.now n → ⊥ }
{
    method_from_bytes(alloc, bytes)
}

/// Bytes are a class file of the first form with one method at most.
pub fn first_form_is_one()
    ensures { (bytes : List ℕ) (m n : FirstMethod) → IsFirstForm bytes m → IsFirstForm bytes n → m ≡ n }
{}
