//! The accesses of a statement.
ghost use Rattle.std.specs.Prelude.{◌≡◌, ◌≢◌, ◌≤◌, ◌<◌, ◌+◌, ◌*◌, ◌^◌, ◌-◌, Option, Some, IfSome, [], length, slice_get, if◌then◌else◌, ⊤};
ghost use Rattle.std.specs.Option.{option_map_or};
ghost use Rattle.ob_base.specs.Accesses.{discard_at, drop_script};
ghost use Rattle.ob_base.specs.Indexes.{height_of};
ghost use Rattle.ob_base.specs.Numbers.{blocks_for};
ghost use Rattle.ob_base.specs.Plans.{MayPad};
ghost use Rattle.ob_base.specs.Joins.{chunks, joined_blocks, joined_slots};
ghost use Rattle.ob_base.specs.Limits.{buffered_blocks};
ghost use Rattle.ob_base.specs.Stored.{stored_region};
ghost use Rattle.ob_script.specs.Parts.{access_part, count_part, create_part, index_part, insert_part, rewrite_part, small_part, large_part, emission_part};
ghost use Rattle.ob_script.specs.Sections.{all_accesses, Adds, IsFew, IsLeaf};
ghost use Rattle.ob_script.specs.Tables.{tables_after};
ghost use Rattle.ob_script.specs.Script.{behind_change, made_by, save_part, script, whole_script, with_table, created_script, dropped_script, flat_script, index_part_of, table_script, mutation_script, shape_script, blocks_of, extent_of, source_script, join_script, joined_extent, select_part, padded_part, result_part, plan_part, result_blocks};
ghost use Rattle.ob_script.specs.Sizes.{HasRows, IfTable, IsHeld, IsPublic, IsCounted, IsWithin, IsSourceCounted, IsTable};

use crate::extent::{Extent, extent_of, new_width, others, table_at};
use crate::section::Section;
use crate::sections::Sections;
use crate::tree::tree_blocks;
use ob_base::{Access, End, Name, Plan, Public, Seen, Shape, Skeleton, Source, Table, tree_height};
use ob_plan::padded_plan;

// A new region that is filled in order.
#[tactic(auto, using(crate::proofs::Joined::all_more))]
fn push_create(sections: &mut Sections, region: u64, blocks: u32, width: u32)
    requires room { length sections.old ≤ 14 }
    requires width { width ≤ 2 ^ 24 }
    ensures adds { Adds sections.old sections.new (create_part region blocks width) }
    ensures few { length sections.new ≡ length sections.old + 2 }
{
    sections.push(Section::Make {
        region,
        blocks,
        width,
    });
    sections.push(Section::Writes { region, blocks });
}

// What is discarded, if there is something.
#[tactic(auto, using(crate::proofs::Joined::all_more))]
fn push_discard(sections: &mut Sections, region: Option<u64>)
    requires room { length sections.old ≤ 15 }
    ensures adds { Adds sections.old sections.new (drop_script region) }
    ensures few { length sections.new ≤ length sections.old + 1 }
{
    if let Some(region) = region {
        sections.push(Section::Discard { region });
    }
}

// How many tables there are after a statement.
fn listed_after(public: &Public, skeleton: &Skeleton) -> u32
    requires few { length public.now.tables ≤ 64 }
    ensures value { result ≡ length (tables_after public.now skeleton.now) }
    ensures few { result ≤ 65 }
{
    let tables = public.tables.as_slice();
    match skeleton {
        Skeleton::Create { .. } => tables.len() as u32 + 1,
        Skeleton::Drop { table } => others(tables, table),
        Skeleton::Insert { .. }
        | Skeleton::Update { .. }
        | Skeleton::Delete { .. }
        | Skeleton::Rows { .. }
        | Skeleton::Groups { .. } => tables.len() as u32,
    }
}

// How many regions its change makes.
fn made_by(skeleton: &Skeleton) -> u64
    ensures value { result ≡ made_by skeleton.now }
    ensures few { result ≤ 1 }
{
    match skeleton {
        Skeleton::Create { .. }
        | Skeleton::Insert { .. }
        | Skeleton::Update { .. }
        | Skeleton::Delete { .. } => 1,
        Skeleton::Drop { .. } | Skeleton::Rows { .. } | Skeleton::Groups { .. } => 0,
    }
}

// What follows a change of tables, which left this region.
fn push_behind(sections: &mut Sections, public: &Public, skeleton: &Skeleton, left: Option<u64>)
    requires room { length sections.old ≤ 12 }
    requires public { IsPublic public.now }
    ensures { Adds sections.old sections.new (behind_change public.now skeleton.now left) }
{
    if public.save {
        push_saving(sections, public, skeleton, left);
    } else {
        push_discard(sections, left);
    }
}

// Where tables are saved.
fn push_saving(sections: &mut Sections, public: &Public, skeleton: &Skeleton, left: Option<u64>)
    requires room { length sections.old ≤ 12 }
    requires few { length public.now.tables ≤ 64 }
    requires next { public.now.next_region ≤ 2 ^ 63 + 2 ^ 60 }
    ensures { Adds sections.old sections.new (save_part public.now skeleton.now left) }
{
    let region = public.next_region + made_by(skeleton);
    push_create(sections, region, listed_after(public, skeleton) + 1, 1024);
    push_discard(sections, left);
    push_discard(sections, public.closing);
}

// INSERT, except for what follows.
#[tactic(auto, using(crate::proofs::Joined::all_more))]
fn push_insert(sections: &mut Sections, from: u64, to: u64, blocks: u32, width: u32)
    requires room { length sections.old ≤ 12 }
    requires width { width ≤ 2 ^ 24 }
    ensures adds { Adds sections.old sections.new (insert_part from to blocks width []) }
    ensures few { length sections.new ≡ length sections.old + 3 }
{
    sections.push(Section::Make {
        region: to,
        blocks,
        width,
    });
    sections.push(Section::Reads {
        region: from,
        blocks,
    });
    sections.push(Section::Copies { from, to, blocks });
}

// UPDATE and DELETE, except for what follows.
#[tactic(auto, using(crate::proofs::Joined::all_more))]
fn push_rewrite(sections: &mut Sections, from: u64, to: u64, blocks: u32, width: u32)
    requires room { length sections.old ≤ 13 }
    requires width { width ≤ 2 ^ 24 }
    ensures adds { Adds sections.old sections.new (rewrite_part from to blocks width []) }
    ensures few { length sections.new ≡ length sections.old + 2 }
{
    sections.push(Section::Make {
        region: to,
        blocks,
        width,
    });
    sections.push(Section::Copies { from, to, blocks });
}

// An access of an index, for the leaf that is read.
#[tactic(auto, using(crate::proofs::Joined::all_more))]
fn push_access(sections: &mut Sections, tree: u64, stash: u64, slots: u32, height: u32, leaf: u32)
    requires room { length sections.old ≤ 12 }
    requires leaf { IsLeaf height leaf }
    ensures adds { Adds sections.old sections.new (access_part tree stash slots height leaf) }
    ensures few { length sections.new ≡ length sections.old + 4 }
{
    sections.push(Section::Reads {
        region: stash,
        blocks: slots,
    });
    sections.push(Section::PathReads {
        region: tree,
        height,
        leaf,
    });
    sections.push(Section::PathWrites {
        region: tree,
        height,
        leaf,
    });
    sections.push(Section::Writes {
        region: stash,
        blocks: slots,
    });
}

// An index of so many keys: its tree is made and filled, and then its stash.
#[tactic(auto, using(crate::proofs::Joined::all_more))]
fn push_index(sections: &mut Sections, region: u64, slots: u32, keys: u32, width: u32)
    requires room { sections.old ≡ [] }
    requires region { region < 2 ^ 64 - 1 }
    requires keys { keys ≤ 2 ^ 24 }
    requires width { width ≤ 2 ^ 24 }
    ensures { all_accesses sections.new
        ≡ index_part region (region + 1) slots (height_of keys) width }
{
    push_create(sections, region, tree_blocks(tree_height(keys)), width);
    push_create(sections, region + 1, slots, width);
}

// An access of an index for the leaf that is held; without one no more than its stash is read.
#[tactic(auto, using(crate::proofs::Joined::all_more))]
fn push_held(sections: &mut Sections, public: &Public, leaf: Option<u64>, table: &Table)
    requires room { sections.old ≡ [] }
    requires public { IsPublic public.now }
    requires table { IsTable table.now }
    requires leaf { IfSome leaf (λ l. l < 2 ^ height_of table.now.heading.capacity) }
    ensures { all_accesses sections.new
        ≡ index_part_of public.now leaf (stored_region table.now) }
{
    let (tree, stash) = (table.region, table.region + 1);
    let height = tree_height(table.heading.capacity);
    match leaf {
        None => sections.push(Section::Reads {
            region: stash,
            blocks: public.stash,
        }),
        Some(leaf) => push_access(sections, tree, stash, public.stash, height, leaf as u32),
    }
}

// A result is read in order and discarded.
#[tactic(auto, using(crate::proofs::Joined::all_more))]
fn push_emission(sections: &mut Sections, region: u64, blocks: u32)
    requires room { length sections.old ≤ 14 }
    ensures adds { Adds sections.old sections.new (emission_part region blocks) }
    ensures few { length sections.new ≡ length sections.old + 2 }
{
    sections.push(Section::Reads { region, blocks });
    sections.push(Section::Discard { region });
}

// The blocks of so many slots.
fn blocks_of(public: &Public, slots: u32) -> u32
    requires { 1 ≤ public.now.pack }
    ensures { result ≡ blocks_for public.now.pack slots }
{
    slots.div_ceil(u32::from(public.pack))
}

// The blocks that a pass may buffer.
fn buffered(public: &Public) -> u32
    requires { IsPublic public.now }
    ensures value { result ≡ buffered_blocks public.now.pack public.now.buffer }
    ensures some { 1 ≤ result }
    ensures few { result ≤ 65536 }
{
    let pack = u32::from(public.pack);
    (public.buffer - 2 * pack) / pack
}

// Small's result.
#[tactic(auto, using(crate::proofs::Joined::all_more))]
fn push_small(
    sections: &mut Sections,
    from: u64,
    to: u64,
    blocks: u32,
    results: u32,
    buffered: u32,
    width: u32,
)
    requires room { length sections.old ≤ 14 }
    requires blocks { IsFew blocks }
    requires results { IsFew results }
    requires buffered { IsFew buffered }
    requires some { 1 ≤ buffered }
    requires width { width ≤ 2 ^ 24 }
    ensures adds { Adds sections.old sections.new
        (small_part from to blocks results buffered width) }
    ensures few { length sections.new ≡ length sections.old + 2 }
{
    sections.push(Section::Make {
        region: to,
        blocks: results,
        width,
    });
    sections.push(Section::Passes {
        from,
        to,
        blocks,
        results,
        buffered,
    });
}

// Large's result.
#[tactic(auto, using(crate::proofs::Joined::all_more))]
fn push_large(sections: &mut Sections, from: u64, to: u64, blocks: u32, width: u32)
    requires room { length sections.old ≤ 13 }
    requires width { width ≤ 2 ^ 24 }
    ensures adds { Adds sections.old sections.new (large_part from to blocks width) }
    ensures few { length sections.new ≡ length sections.old + 3 }
{
    sections.push(Section::Make {
        region: to,
        blocks,
        width,
    });
    sections.push(Section::Copies { from, to, blocks });
    sections.push(Section::Copies {
        from: to,
        to,
        blocks,
    });
}

// The way to the result of `k` rows.
#[tactic(auto, using(crate::proofs::Joined::all_more))]
fn push_plan(sections: &mut Sections, public: &Public, plan: Plan, k: u32, to: u64, from: Extent)
    requires room { length sections.old ≤ 13 }
    requires public { IsPublic public.now }
    requires some { HasRows plan k }
    requires rows { IsFew k }
    requires slots { IsFew from.slots }
    requires width { from.width ≤ 1024 }
    ensures adds { Adds sections.old sections.new (plan_part public.now plan k to from) }
    ensures few { length sections.new ≤ length sections.old + 3 }
{
    let pack = u32::from(public.pack);
    let depth = u32::from(public.depth);
    let blocks = blocks_of(public, from.slots);
    let results = blocks_of(public, k);
    let width = pack * from.width;
    match plan {
        Plan::Small => {
            push_small(
                sections,
                from.region,
                to,
                blocks,
                results,
                buffered(public),
                width,
            );
        }
        Plan::Large => push_large(sections, from.region, to, blocks, width),
        Plan::Continuous => {
            push_create(sections, to, results, width);
            sections.push(Section::Turns {
                from: from.region,
                to,
                pack,
                slots: from.slots,
                rows: k,
            });
        }
        Plan::Hash => {
            push_create(sections, to, k * depth, width);
            sections.push(Section::Buckets {
                from: from.region,
                to,
                pack,
                slots: from.slots,
                rows: k,
                depth,
            });
        }
    }
}

// The blocks of the result.
fn result_blocks(public: &Public, plan: Plan, k: u32, from: Extent) -> u32
    requires public { IsPublic public.now }
    requires rows { IsFew k }
    ensures { result ≡ result_blocks public.now plan k from }
{
    match plan {
        Plan::Small | Plan::Continuous => blocks_of(public, k),
        Plan::Large => blocks_of(public, from.slots),
        Plan::Hash => k * u32::from(public.depth),
    }
}

// A plan's result, and what it is read back by.
fn push_result(
    sections: &mut Sections,
    public: &Public,
    plan: Option<Plan>,
    k: u32,
    to: u64,
    from: Extent,
)
    requires room { length sections.old ≤ 11 }
    requires public { IsPublic public.now }
    requires some { IfSome plan (λ taken. HasRows taken k) }
    requires rows { IsFew k }
    requires slots { IsFew from.slots }
    requires width { from.width ≤ 1024 }
    ensures adds { Adds sections.old sections.new (result_part public.now plan k to from) }
    ensures few { length sections.new ≤ length sections.old + 5 }
{
    match plan {
        None => {}
        Some(plan) => {
            push_plan(sections, public, plan, k, to, from);
            push_emission(sections, to, result_blocks(public, plan, k, from));
        }
    }
}

// A padded result of `from`.
fn push_padded(sections: &mut Sections, public: &Public, pad: u32, to: u64, from: Extent)
    requires room { length sections.old ≤ 11 }
    requires public { IsPublic public.now }
    requires plan { MayPad public.now.planner }
    requires slots { IsFew from.slots }
    requires width { from.width ≤ 1024 }
    ensures adds { Adds sections.old sections.new (padded_part public.now pad to from) }
    ensures few { length sections.new ≤ length sections.old + 5 }
{
    let rows = pad.min(from.slots);
    push_result(
        sections,
        public,
        Some(padded_plan(from.slots, rows, public)),
        rows,
        to,
        from,
    );
}

// The discarding of a region, where there is one.
#[tactic(auto, using(crate::proofs::Joined::all_more))]
fn push_ending(sections: &mut Sections, ending: Option<u64>)
    requires room { length sections.old ≤ 15 }
    ensures adds { Adds sections.old sections.new (option_map_or discard_at ending []) }
{
    if let Some(region) = ending {
        sections.push(Section::Discard { region });
    }
}

// The count of `from`, and once it is known, the results and the discarding of `ending`.
#[tactic(auto, using(crate::proofs::Joined::all_more))]
fn push_select(
    sections: &mut Sections,
    public: &Public,
    seen: &Seen,
    to: u64,
    from: Extent,
    ending: Option<u64>,
)
    requires room { length sections.old ≤ 4 }
    requires public { IsPublic public.now }
    requires counted { IsCounted seen.now from }
    requires next { to < 2 ^ 64 - 1 }
    ensures { Adds sections.old sections.new
        (select_part public.now seen.now to from (option_map_or discard_at ending [])) }
{
    sections.push(Section::Reads {
        region: from.region,
        blocks: blocks_of(public, from.slots),
    });
    if let Some(pad) = public.pad {
        push_padded(sections, public, pad, to, from);
        push_ending(sections, ending);
    } else if let Some(k) = seen.k {
        push_result(sections, public, seen.plan, k as u32, to, from);
        push_result(sections, public, seen.then, k as u32, to + 1, from);
        push_ending(sections, ending);
    }
}

// The chunks of a join's left table.
fn chunks(public: &Public, left: &Table) -> u32
    requires public { IsPublic public.now }
    requires left { IsTable left.now }
    ensures { result ≡ chunks public.now.pack public.now.buffer left.now.heading.capacity }
{
    blocks_of(public, left.heading.capacity).div_ceil(buffered(public))
}

// The blocks of the joined region.
fn joined_blocks(public: &Public, left: &Table, right: &Table) -> u32
    requires public { IsPublic public.now }
    requires left { IsTable left.now }
    requires right { IsTable right.now }
    requires few { IsFew (joined_slots public.now.pack public.now.buffer
        left.now.heading.capacity right.now.heading.capacity) }
    ensures value { result ≡ joined_blocks public.now.pack public.now.buffer
        left.now.heading.capacity right.now.heading.capacity }
    ensures few { IsFew result }
{
    let rights = u64::from(blocks_of(public, right.heading.capacity));
    let blocks = u64::from(chunks(public, left)) * rights;
    blocks as u32
}

// Where the joined rows lie.
#[tactic(auto, using(crate::proofs::Joined::width_both))]
fn joined(public: &Public, left: &Table, right: &Table) -> Extent
    requires public { IsPublic public.now }
    requires left { IsTable left.now }
    requires right { IsTable right.now }
    requires few { IsFew (joined_slots public.now.pack public.now.buffer
        left.now.heading.capacity right.now.heading.capacity) }
    ensures { result ≡ joined_extent public.now left.now.heading right.now.heading }
{
    Extent {
        region: public.next_region,
        slots: joined_blocks(public, left, right) * u32::from(public.pack),
        width: left.heading.schema.width() + right.heading.schema.width() - 1,
    }
}

// A SELECT over a join.
#[tactic(auto, using(crate::proofs::Joined::all_more))]
fn push_join(sections: &mut Sections, public: &Public, seen: &Seen, left: &Table, right: &Table)
    requires room { sections.old ≡ [] }
    requires public { IsPublic public.now }
    requires left { IsTable left.now }
    requires right { IsTable right.now }
    requires counted { IsCounted seen.now
        (joined_extent public.now left.now.heading right.now.heading) }
    ensures { all_accesses sections.new ≡ join_script public.now seen.now
        (stored_region left.now) (stored_region right.now) }
{
    let lefts = blocks_of(public, left.heading.capacity);
    let rights = blocks_of(public, right.heading.capacity);
    let to = public.next_region;
    let pairs = joined(public, left, right);
    sections.push(Section::Make {
        region: to,
        blocks: joined_blocks(public, left, right),
        width: u32::from(public.pack) * pairs.width,
    });
    sections.push(Section::Pairs {
        left: left.region,
        right: right.region,
        to,
        lefts,
        rights,
        buffered: buffered(public),
    });
    push_select(sections, public, seen, to + 1, pairs, Some(to));
}

// A SELECT of a table's rows, of an index for the leaf that is held.
fn push_rows(sections: &mut Sections, public: &Public, seen: &Seen, table: &Table)
    requires room { sections.old ≡ [] }
    requires public { IsPublic public.now }
    requires table { IsTable table.now }
    requires held { IsHeld public.now seen.now
        (IsCounted seen.now (extent_of (stored_region table.now))) (stored_region table.now) }
    ensures { all_accesses sections.new
        ≡ table_script public.now seen.now (stored_region table.now) }
{
    match table.heading.shape {
        Shape::Flat => push_select(
            sections,
            public,
            seen,
            public.next_region,
            extent_of(table),
            None,
        ),
        Shape::Indexed => push_held(sections, public, seen.leaf, table),
    }
}

// A SELECT of rows.
fn push_source(sections: &mut Sections, public: &Public, seen: &Seen, source: &Source)
    requires room { sections.old ≡ [] }
    requires public { IsPublic public.now }
    requires counted { IsSourceCounted public.now seen.now source.now }
    ensures { all_accesses sections.new ≡ source_script public.now seen.now source.now }
{
    let tables = public.tables.as_slice();
    match source {
        Source::Table(name) => {
            if let Some(table) = table_at(tables, name) {
                push_rows(sections, public, seen, table);
            }
        }
        Source::Join { left, right, .. } => {
            if let Some(left) = table_at(tables, left)
                && let Some(right) = table_at(tables, right)
            {
                push_join(sections, public, seen, left, right);
            }
        }
    }
}

// INSERT, UPDATE or DELETE of a flat table.
fn push_change(
    sections: &mut Sections,
    public: &Public,
    skeleton: &Skeleton,
    table: &Table,
    inserts: bool,
)
    requires room { sections.old ≡ [] }
    requires public { IsPublic public.now }
    requires table { IsTable table.now }
    ensures { all_accesses sections.new
        ≡ mutation_script public.now (if inserts then insert_part else rewrite_part)
        (behind_change public.now skeleton.now) (stored_region table.now) }
{
    let from = extent_of(table);
    let to = public.next_region;
    let blocks = blocks_of(public, from.slots);
    let width = u32::from(public.pack) * from.width;
    if inserts {
        push_insert(sections, from.region, to, blocks, width);
    } else {
        push_rewrite(sections, from.region, to, blocks, width);
    }
    push_behind(sections, public, skeleton, Some(from.region));
}

// INSERT, UPDATE or DELETE of a table, of an index for the leaf that is held.
fn push_mutation(
    sections: &mut Sections,
    public: &Public,
    skeleton: &Skeleton,
    seen: &Seen,
    name: &Name,
    inserts: bool,
)
    requires room { sections.old ≡ [] }
    requires public { IsPublic public.now }
    requires held { IfTable name.now public.now (IsHeld public.now seen.now ⊤) }
    ensures { all_accesses sections.new ≡ with_table name.now public.now
        (shape_script public.now seen.now.leaf
        (mutation_script public.now (if inserts then insert_part else rewrite_part)
        (behind_change public.now skeleton.now))) }
{
    if let Some(table) = table_at(public.tables.as_slice(), name) {
        match table.heading.shape {
            Shape::Flat => push_change(sections, public, skeleton, table, inserts),
            Shape::Indexed => push_held(sections, public, seen.leaf, table),
        }
    }
}

// DROP of a table.
#[tactic(auto, using(crate::proofs::Joined::all_more))]
fn push_drop(sections: &mut Sections, public: &Public, skeleton: &Skeleton, name: &Name)
    requires room { sections.old ≡ [] }
    requires public { IsPublic public.now }
    ensures { all_accesses sections.new ≡ with_table name.now public.now
        (dropped_script (behind_change public.now skeleton.now)) }
{
    if let Some(table) = table_at(public.tables.as_slice(), name) {
        match table.heading.shape {
            Shape::Flat => push_behind(sections, public, skeleton, Some(table.region)),
            Shape::Indexed => {
                sections.push(Section::Discard {
                    region: table.region,
                });
                sections.push(Section::Discard {
                    region: table.region + 1,
                });
            }
        }
    }
}

// Aggregates and GROUP BY over a table.
#[tactic(auto, using(crate::proofs::Joined::all_more))]
fn push_groups(sections: &mut Sections, public: &Public, name: &Name)
    requires room { sections.old ≡ [] }
    requires public { IsPublic public.now }
    ensures { all_accesses sections.new ≡ with_table name.now public.now
        (λ t. count_part t.held (blocks_of public.now (extent_of t))) }
{
    if let Some(table) = table_at(public.tables.as_slice(), name) {
        sections.push(Section::Reads {
            region: table.region,
            blocks: blocks_of(public, table.heading.capacity),
        });
    }
}

// CREATE.
#[tactic(auto, using(crate::proofs::Joined::all_more))]
fn push_created(
    sections: &mut Sections,
    public: &Public,
    skeleton: &Skeleton,
    keys: u32,
    width: u32,
    shape: Shape,
)
    requires room { sections.old ≡ [] }
    requires public { IsPublic public.now }
    requires keys { keys ≤ 2 ^ 20 }
    requires width { width ≤ 1024 }
    ensures { all_accesses sections.new
        ≡ created_script public.now keys width (behind_change public.now skeleton.now) shape }
{
    let region = public.next_region;
    match shape {
        Shape::Flat => {
            let blocks = blocks_of(public, keys);
            push_create(sections, region, blocks, u32::from(public.pack) * width);
            push_behind(sections, public, skeleton, None);
        }
        Shape::Indexed => push_index(sections, region, public.stash, keys, width),
    }
}

// All that a statement asks which is not refused before.
fn whole(public: &Public, skeleton: &Skeleton, seen: &Seen) -> Sections
    requires public { IsPublic public.now }
    requires within { IsWithin public.now skeleton.now seen.now }
    ensures { all_accesses result ≡ whole_script public.now skeleton.now seen.now }
{
    let mut sections = Sections::new();
    match skeleton {
        Skeleton::Create {
            columns,
            capacity,
            shape,
            ..
        } => {
            let width = new_width(columns.as_slice());
            push_created(&mut sections, public, skeleton, *capacity, width, *shape);
        }
        Skeleton::Insert { table, .. } => {
            push_mutation(&mut sections, public, skeleton, seen, table, true);
        }
        Skeleton::Update { table, .. } | Skeleton::Delete { table } => {
            push_mutation(&mut sections, public, skeleton, seen, table, false);
        }
        Skeleton::Drop { table } => push_drop(&mut sections, public, skeleton, table),
        Skeleton::Rows { source, .. } => push_source(&mut sections, public, seen, source),
        Skeleton::Groups { table, .. } => push_groups(&mut sections, public, table),
    }
    sections
}

/// The number of accesses of a statement.
pub fn script_len(public: &Public, skeleton: &Skeleton, seen: &Seen) -> u64
    requires public { IsPublic public.now }
    requires within { seen.now.end ≢ End.Static → IsWithin public.now skeleton.now seen.now }
    ensures { result ≡ length (script public.now skeleton.now seen.now) }
{
    match seen.end {
        End::Static | End::Batched => 0,
        End::Whole | End::AfterCount => whole(public, skeleton, seen).len(),
        End::Cut(n) => n.min(whole(public, skeleton, seen).len()),
    }
}

/// The access of a statement at place `i`, from 0.
pub fn script_nth(public: &Public, skeleton: &Skeleton, seen: &Seen, i: u64) -> Access
    requires public { IsPublic public.now }
    requires within { seen.now.end ≢ End.Static → IsWithin public.now skeleton.now seen.now }
    requires place { i < length (script public.now skeleton.now seen.now) }
    ensures { slice_get (script public.now skeleton.now seen.now) i ≡ Some result }
{
    whole(public, skeleton, seen).nth(i)
}
