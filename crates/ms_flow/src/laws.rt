// Laws of flow graphs, each the contract of a function that does nothing.
ghost use Rattle.std.specs.Prelude.{◌∷◌, Contains, nat_eq, ◌≡◌, ◌<◌, ℕ, List, ◌↔◌, ◌⊎◌, Some, IsSome, length, slice_get, slice_index, slice_index_or, ◌≤◌, sum_by};
ghost use Rattle.std.specs.List.{IsDistinct};
ghost use Rattle.ms_paths.specs.Flow.{Block as Run, HasEdge, IsPath, IsReached, IsWalk, IsOnEveryPath, IsReducible, IsClosed, IsOrder};
ghost use Rattle.ms_ir.specs.Changes.{IsCondBr, with_edge_cut};
ghost use Rattle.ms_ir.specs.Func.{Block, FuncState, no_block};
ghost use Rattle.ms_flow.specs.Cut.{cut_graph, edge_before, edges_left};
ghost use Rattle.ms_ir.specs.Graph.{graph_of, successors};
ghost use Rattle.ms_flow.specs.declared.sources.Source.{Source};
ghost use Rattle.ms_flow.specs.Table.{edges_of, next_of};
ghost use Rattle.ms_flow.specs.Flow.{IsBefore, order_of, place_of, sources_of, walked};

/// The graph without the instructions has the paths of the function's graph.
pub fn same_paths()
    ensures blocks { (blocks : List Block) → length (edges_of blocks) ≡ length blocks }
    ensures targets { (blocks : List Block) (b : ℕ) → next_of (edges_of blocks) b ≡ successors (slice_index_or blocks b no_block).term }
    ensures edges { (blocks : List Block) (a b : ℕ) → HasEdge (edges_of blocks) a b ↔ HasEdge (graph_of blocks) a b }
    ensures paths { (blocks : List Block) (b : ℕ) (p : List ℕ) → IsPath (edges_of blocks) b p ↔ IsPath (graph_of blocks) b p }
    ensures reached { (blocks : List Block) (b : ℕ) → IsReached (edges_of blocks) b ↔ IsReached (graph_of blocks) b }
    ensures walks { (blocks : List Block) (a b : ℕ) (w : List ℕ) → IsWalk (edges_of blocks) a b w ↔ IsWalk (graph_of blocks) a b w }
    ensures on_every_path { (blocks : List Block) (h b : ℕ) → IsOnEveryPath (edges_of blocks) h b ↔ IsOnEveryPath (graph_of blocks) h b }
    ensures reducible { (blocks : List Block) → IsReducible (edges_of blocks) ↔ IsReducible (graph_of blocks) }
    ensures closed { (blocks : List Block) → IsClosed (graph_of blocks) → IsClosed (edges_of blocks) }
{}

/// What the order of the blocks is: the walk from block 0 leaves each reached block once, and each edge goes up in the order,
/// or back to a block on a path to its beginning that passes no block twice.
pub fn order_told()
    ensures listed { (g : List Run) → IsClosed g → (b : ℕ) → Contains (walked g).left b ↔ IsReached g b }
    ensures once { (g : List Run) → IsClosed g → IsDistinct nat_eq (walked g).left }
    ensures reached { (g : List Run) → IsClosed g → (b : ℕ) → IsSome (order_of g b) ↔ IsReached g b }
    ensures below { (g : List Run) (b place : ℕ) → order_of g b ≡ Some place → place < length (walked g).left }
    ensures one { (g : List Run) (a b place : ℕ) → order_of g a ≡ Some place → order_of g b ≡ Some place → a ≡ b }
    ensures edges { (g : List Run) → IsClosed g → (a b i j : ℕ) → HasEdge g a b → order_of g a ≡ Some i → order_of g b ≡ Some j →
        (i < j) ⊎ ((p : List ℕ) × IsPath g a p × IsDistinct nat_eq (a ∷ p) × Contains (a ∷ p) b) }
    ensures order { (g : List Run) → IsClosed g → IsReducible g → IsOrder g (place_of g) }
{
    ms_paths::laws::order_told();
}

/// What the edges to a block are: exactly those from reached blocks, in text order of the block that they leave, then by slot.
pub fn sources_told()
    ensures edges { (g : List Run) → IsClosed g → (b : ℕ) (e : Source) → Contains (sources_of g b) e →
        IsReached g e.from × (e.slot < length (next_of g e.from)) × (slice_index (next_of g e.from) e.slot ≡ b) }
    ensures all { (g : List Run) → IsClosed g → (a slot : ℕ) → IsReached g a → slot < length (next_of g a) →
        Contains (sources_of g (slice_index (next_of g a) slot)) (record { from = a; slot = slot }) }
    ensures order { (g : List Run) (b i j : ℕ) (d e : Source) → i < j →
        slice_get (sources_of g b) i ≡ Some d → slice_get (sources_of g b) j ≡ Some e → IsBefore d e }
{}

/// What a cut edge makes of a graph. The graph is that of the function with the edge cut. No edge, no path and no reached block comes,
/// and each edge to a block stood among those to it before. How many edges leave reached blocks is one number, in whatever order
/// these are counted.
pub fn cut_is_told()
    ensures blocks { (g : List Run) (c slot : ℕ) → length (cut_graph g c slot) ≡ length g }
    ensures function { (f : FuncState) (b slot : ℕ) → IsCondBr (slice_index_or f.blocks b no_block).term → edges_of (with_edge_cut f b slot).blocks ≡ cut_graph (edges_of f.blocks) b slot }
    ensures edges { (g : List Run) (c slot a b : ℕ) → length (next_of g c) ≡ 2 → HasEdge (cut_graph g c slot) a b → HasEdge g a b }
    ensures closed { (g : List Run) (c slot : ℕ) → length (next_of g c) ≡ 2 → IsClosed g → IsClosed (cut_graph g c slot) }
    ensures reached { (g : List Run) (c slot b : ℕ) → length (next_of g c) ≡ 2 → IsReached (cut_graph g c slot) b → IsReached g b }
    ensures reducible { (g : List Run) (c slot : ℕ) → length (next_of g c) ≡ 2 → IsReducible g → IsReducible (cut_graph g c slot) }
    ensures fewer { (g : List Run) (c slot b : ℕ) → IsClosed g → length (next_of g c) ≡ 2 → slot < 2 → length (sources_of (cut_graph g c slot) b) ≤ length (sources_of g b) }
    ensures stood { (g : List Run) (c slot b : ℕ) (e : Source) → IsClosed g → length (next_of g c) ≡ 2 → slot < 2 → Contains (sources_of (cut_graph g c slot) b) e →
        Contains (sources_of g b) (edge_before c slot e) }
    ensures count { (g : List Run) (blocks : List ℕ) → IsClosed g → IsDistinct nat_eq blocks → ((b : ℕ) → Contains blocks b ↔ IsReached g b) →
        sum_by (λ b. length (next_of g b)) blocks ≡ edges_left g }
{
    ms_paths::laws::part_form();
}
