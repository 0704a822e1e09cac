// The form of a path, read in place.
#![tactic(auto)]

ghost use Rattle.std.specs.Prelude.{◌≡◌, ◌≤◌, length, drop};
ghost use Rattle.format.specs.Path.{path_parts, is_component, all_components};
ghost use Rattle.path.specs.Form.{EndsAt, SoundPath};

use order::{contains, same};

// Where the component that begins at `from` ends: at the first '/' from there on, or at the path's end.
pub fn component_end(path: &[u8], from: usize) -> usize
    requires { from ≤ length path.now }
    ensures { EndsAt path.now from result }
{
    match path[from..].iter().position(|byte| *byte == b'/') {
        Some(n) => from + n,
        None => path.len(),
    }
}

// Whether these bytes, none of them '/', may be a component: 1 to 255 of them, not ".", and no NUL.
pub fn is_component(part: &[u8]) -> bool
    ensures { result ≡ is_component part.now }
{
    let limits = format::the_limits();
    if part.len() < 1 {
        return false;
    }
    if limits.name_most < part.len() {
        return false;
    }
    if same(part, b".") {
        return false;
    }
    !contains(0, part)
}

// Whether each component from `from` on may be one. A component begins where the one before it ends, so that no range has their places.
fn all_components(path: &[u8], from: usize) -> bool
    requires { from ≤ length path.now }
    ensures { result ≡ all_components (path_parts (drop from path.now)) }
{
    let mut at = from;
    loop {
        let end = component_end(path, at);
        if !is_component(&path[at..end]) {
            return false;
        }
        if end == path.len() {
            return true;
        }
        at = end + 1;
    }
}

// Whether a path has a right form: "/", or '/' before each component.
pub fn is_sound(path: &[u8]) -> bool
    ensures { SoundPath path.now result }
{
    let limits = format::the_limits();
    if path.len() < 1 {
        return false;
    }
    if limits.path_most < path.len() {
        return false;
    }
    if path[0] != b'/' {
        return false;
    }
    if path.len() == 1 {
        return true;
    }
    all_components(path, 1)
}
