// The acceptance of a source.
ghost use Rattle.std.specs.Prelude.{◌≡◌, ◌≤◌, [], length, IfOk, OnOk, IsTrue};
ghost use Rattle.std.specs.List.{list_all, AllByRecursion};
ghost use Rattle.c_judge.specs.Rules.{KeepsRules};
ghost use Rattle.nest_core.specs.Order.{numbered};
ghost use Rattle.nest_core.specs.Shapes.{IsShaped, IsShapedNest};
ghost use Rattle.source_check.specs.Sights.{are_extents, have_shapes};
ghost use Rattle.source_limits.specs.Dimensions.{HasMatrices, is_declared_site};
ghost use Rattle.source_limits.specs.Executor.{HasExecutor};
ghost use Rattle.source_limits.specs.Heads.{signature_of};
ghost use Rattle.source_limits.specs.Sites.{is_shallow};

use crate::inside::{Sight, judge_accesses};
use crate::nest::{make_nest, terms_of};
use c_tree::{Array, Program, Stmt};
use chill_base::{List, Name, NoMemory, Stop};
use int_rows::Aff;
use nest_core::number;
use nest_systems::extent_form;
use nest_tree::{Kernel, Nest};
use source_limits::{
    At, Part, Scene, Site, SourceFault, SourceWhat, count_statements, expressions, judge_site,
    names_of, not_affine, over, reads_of, signature_of, sites, sizes_of,
};
use std::alloc::Global;

/// Refuses an inspector that isn't empty.
fn judge_inspector(inspector: &[Stmt]) -> Result<(), Stop<SourceFault>>
    ensures { OnOk result (inspector.now ≡ []) }
{
    let count = count_statements(inspector);
    if count > 0 {
        return Err(over(SourceWhat::Inspector, count));
    }
    Ok(())
}

/// The extents of an array as forms of the parameters.
fn extents_of(
    alloc: Global,
    program: &Program,
    array: &Array,
) -> Result<List<Aff>, Stop<SourceFault>>
    ensures widths { IfOk result (λ fs. IsTrue (are_extents (length program.now.params) fs)) }
    ensures count { IfOk result (λ fs. length fs ≡ length array.now.extents) }
{
    let at = At {
        statement: 0,
        part: Part::Subscript,
    };
    let mut forms = List::new(alloc);
    for extent in array.extents.as_slice() {
        match extent_form(alloc, program, extent)? {
            Some(form) => forms.push(form)?,
            None => return Err(not_affine(at)),
        }
    }
    Ok(forms)
}

/// The extents of all arrays as forms of the parameters.
fn all_extents(alloc: Global, program: &Program) -> Result<List<List<Aff>>, Stop<SourceFault>>
    ensures widths { IfOk result (λ all. IsTrue (list_all (are_extents (length program.now.params)) all)) }
    ensures shapes { IfOk result (λ all. IsTrue (have_shapes program.now.arrays all)) }
{
    let mut all = List::new(alloc);
    for array in program.arrays.as_slice() {
        all.push(extents_of(alloc, program, array)?)?;
    }
    Ok(all)
}

/// Judges the limits of an assignment's expressions.
fn judge_limits(alloc: Global, program: &Program, site: &Site) -> Result<(), Stop<SourceFault>>
    requires matrices { HasMatrices program.now }
    requires declared { IsTrue (is_declared_site program.now.arrays site.now) }
{
    let around = site.around.as_slice();
    let names = names_of(alloc, program.params.as_slice(), around)?;
    let sizes = sizes_of(alloc, around)?;
    let scene = Scene {
        statement: site.number,
        head: program,
        names: names.as_slice(),
        sizes: sizes.as_slice(),
    };
    judge_site(alloc, scene, site)
}

fn judge_all_limits(alloc: Global, program: &Program, all: &[Site]) -> Result<(), Stop<SourceFault>>
    requires matrices { HasMatrices program.now }
    requires declared { IsTrue (list_all (is_declared_site program.now.arrays) all.now) }
{
    for site in all {
        judge_limits(alloc, program, site)?;
    }
    Ok(())
}

/// The scene of an assignment whose limits are judged.
fn bare_scene<'a>(program: &'a Program, names: &'a [Name], number: usize) -> Scene<'a>
    ensures head { result.head ≡ program.entry }
    ensures names { result.names ≡ names.entry }
{
    Scene {
        statement: number,
        head: program,
        names,
        sizes: &[],
    }
}

/// Judges an assignment's accesses.
fn judge_places<'x>(
    alloc: Global,
    program: &'x Program,
    extents: &'x [List<Aff>],
    site: &Site,
) -> Result<(), Stop<SourceFault>>
    requires shallow { IsTrue (is_shallow site.now) }
    requires matrices { HasMatrices program.now }
    requires declared { IsTrue (is_declared_site program.now.arrays site.now) }
    requires shapes { IsTrue (have_shapes program.now.arrays extents.now) }
    requires widths { IsTrue (list_all (are_extents (length program.now.params)) extents.now) }
{
    let names = names_of(alloc, program.params.as_slice(), site.around.as_slice())?;
    let scene = bare_scene(program, names.as_slice(), site.number);
    let expressions = expressions(alloc, site)?;
    let reads = reads_of(alloc, scene, expressions.as_slice())?;
    let terms = terms_of(alloc, names.as_slice(), reads.as_slice())?;
    let sight = Sight {
        scene,
        extents,
        reads: reads.as_slice(),
        terms: terms.as_slice(),
    };
    judge_accesses(alloc, sight, site)
}

fn judge_all_places(
    alloc: Global,
    program: &Program,
    extents: &[List<Aff>],
    all: &[Site],
) -> Result<(), Stop<SourceFault>>
    requires shallow { IsTrue (list_all is_shallow all.now) }
    requires matrices { HasMatrices program.now }
    requires declared { IsTrue (list_all (is_declared_site program.now.arrays) all.now) }
    requires shapes { IsTrue (have_shapes program.now.arrays extents.now) }
    requires widths { IsTrue (list_all (are_extents (length program.now.params)) extents.now) }
{
    for site in all {
        judge_places(alloc, program, extents, site)?;
    }
    Ok(())
}

/// The statement of an assignment.
fn nest_of(alloc: Global, program: &Program, site: &Site) -> Result<Nest, Stop<SourceFault>>
    requires { IsTrue (is_shallow site.now) }
    ensures { IfOk result (λ n. IsShapedNest program.now n) }
{
    let names = names_of(alloc, program.params.as_slice(), site.around.as_slice())?;
    let scene = bare_scene(program, names.as_slice(), site.number);
    let expressions = expressions(alloc, site)?;
    let reads = reads_of(alloc, scene, expressions.as_slice())?;
    make_nest(alloc, scene, site, reads.as_slice())
}

/// The statements of the assignments, in textual order.
fn make_nests(
    alloc: Global,
    program: &Program,
    sites: &[Site],
) -> Result<List<Nest>, Stop<SourceFault>>
    requires { IsTrue (list_all is_shallow sites.now) }
    ensures shaped { IfOk result (λ ns. AllByRecursion (IsShapedNest program.now) ns) }
    ensures count { IfOk result (λ ns. length ns ≡ length sites.now) }
    ensures counted { IfOk result (λ ns. numbered ns ≡ ns) }
{
    let mut nests = Vec::new(alloc);
    for site in sites {
        nests.push(nest_of(alloc, program, site)?)?;
    }
    number(alloc, &mut nests)?;
    Ok(List::from_vec(nests))
}

/// The kernel of a source, or why it isn't accepted.
pub fn accept(alloc: Global, program: &Program) -> Result<Kernel, Stop<SourceFault>>
    requires rules { KeepsRules program.now }
    requires executor { HasExecutor program.now }
    ensures shaped { IfOk result IsShaped }
    ensures head { IfOk result (λ k. k.head ≡ signature_of program.now) }
    ensures made { IfOk result (λ k. k.made ≡ []) }
{
    judge_inspector(program.inspector.as_slice())?;
    let extents = all_extents(alloc, program)?;
    let sites = sites(alloc, program.executor.as_slice())?;
    let all = sites.as_slice();
    judge_all_limits(alloc, program, all)?;
    judge_all_places(alloc, program, extents.as_slice(), all)?;
    Ok(Kernel {
        head: signature_of(alloc, program)?,
        made: List::new(alloc),
        nests: make_nests(alloc, program, all)?,
    })
}
