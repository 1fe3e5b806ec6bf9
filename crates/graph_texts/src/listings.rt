//! The text of what an ask is answered.
ghost use Rattle.std.specs.Prelude.{◌≡◌, IfOk};
ghost use Rattle.graph_texts.specs.Listings.{ArePaths};
ghost use Rattle.graph_texts.specs.Listings.{listing_text as text_of};

use bx_tree::Path;
use prints::append_path;
use std::alloc::{AllocError, Global};

/// Paths, each with a newline.
pub fn listing_text(alloc: Global, paths: &[Path]) -> Result<Vec<u8>, AllocError>
    ensures text { IfOk result (λ text. text.items ≡ text_of paths.now) }
    ensures paths { IfOk result (λ text. ArePaths paths.now) }
{
    let mut text = Vec::new(alloc);
    'paths: for path in paths {
        append_path(&mut text, path, b'\n')?;
    }
    Ok(text)
}
