//! Reports: allocators get names, and what is printed of a tree is judged.
ghost use Rattle.std.specs.Prelude.{◌≡◌, [], ◌∷◌, ◌++◌, IsTrue, IfOk, OnOk, OnErr};

use alloc_tree::{NameRefused, Names, SoloTree};
use leak_report::{is_lawful_report, report_text};
use mem_num::{AllocId, NoMemory};
use std::alloc::Global;

/// Binds a name to an operator's allocator.
///
/// Shows `value`, `free`, `room` and `kept` of `Names::ready`, which give what `bind` asks for, and `bound` of `bind`.
pub fn name_operator(names: &mut Names, name: &str, at: AllocId) -> Result<(), NameRefused>
    ensures bound { OnOk result (names.new.bindings ≡ names.old.bindings ++ (name.now, at) ∷ []) }
    ensures err { OnErr result (names.new.bindings ≡ names.old.bindings) }
{
    let ready = names.ready(name)?;
    names.bind(ready, at);
    Ok(())
}

/// Prints the report of a tree and judges the text, which is always lawful.
///
/// Shows `lawful` of `report_text`, and the one clause of `is_lawful_report`: it takes every lawful text.
pub fn is_own_report_lawful(
    alloc: Global,
    tree: &SoloTree,
    names: &[Names],
) -> Result<bool, NoMemory>
    ensures lawful { IfOk result IsTrue }
{
    let text = report_text(alloc, tree, names)?;
    is_lawful_report(alloc, text.as_bytes())
}

#[cfg(test)]
mod tests {
    use super::*;
    use crate::allocators::{ask, open_query};
    use mem_num::Ref;
    use std::test::Fail;

    #[test]
    fn a_report_has_the_names_and_is_lawful(rt: HostRuntime) -> Result<(), Fail> {
        let (mut tree, scan) = open_query(rt.alloc(), 4_096, 1_024).expect(&rt, "a tree");
        let given = Ref {
            chunk: 1,
            alloc: scan,
            size: 256,
        };
        assert_eq!(rt; ask(&mut tree, scan, 200), Ok(given));
        let mut names = Names::new(rt.alloc());
        assert_eq!(rt; name_operator(&mut names, "scan", scan), Ok(()));
        assert_eq!(rt;
            name_operator(&mut names, "scan", AllocId(2)),
            Err(NameRefused::NameTaken)
        );
        assert_eq!(rt;
            report_text(rt.alloc(), &tree, &[names])?.as_str(),
            "#0 Allocator(ROOT) 0/1024/1024/4096 (res/actual/peak/limit)
  #1 Allocator(scan) 1024/256/256/4096 (res/actual/peak/limit)
chunk 1 size 256 owner #1 refs #1:1
refs 1
"
        );
        assert_eq!(rt; is_own_report_lawful(rt.alloc(), &tree, &[]), Ok(true));
        Ok(())
    }
}
