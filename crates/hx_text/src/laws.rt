//! What texts tell. The calls do nothing; what they say stands in their contracts.

ghost use Rattle.std.specs.Prelude.{◌≡◌, ℕ, List, length, All};
ghost use Rattle.hx_board.specs.declared.colours.Colour.{Colour as Player};
ghost use Rattle.hx_board.specs.Cells.{IsExtent};
ghost use Rattle.hx_board.specs.Positions.{Board, IsBoard};
ghost use Rattle.hx_tree.specs.declared.nodes.Node.{Node as TreeNode};
ghost use Rattle.hx_text.specs.declared.versions.Preamble.{Preamble as Before_nodes};
ghost use Rattle.hx_lex.specs.Words.{IsNumber};
ghost use Rattle.hx_text.specs.Grammars.{IsFaultyLine};
ghost use Rattle.hx_text.specs.PositionTexts.{ArePositionLines, position_text};
ghost use Rattle.hx_text.specs.TreeTexts.{AreTreeLines, IsTreeText, NodeFits, IsRootWinner, written_tree};
ghost use Rattle.hx_text.specs.Lengths.{AreShortLines};

/// A text tells its position and the player to move: two of them with the same text are the same.
pub fn text_tells_position()
    ensures { (a b : Board) (m n : Player) → IsBoard a → IsBoard b
        → position_text a m ≡ position_text b n → (a ≡ b) × (m ≡ n) }
{}

/// A text tells its nodes: two lists of nodes with the same text are the same.
pub fn text_tells_nodes()
    ensures { (bytes : List ℕ) (a b : List TreeNode) → IsTreeText bytes a → IsTreeText bytes b
        → a ≡ b }
{}

/// What `write_heading`, `write_node` for each node and `write_end` write is the text of these nodes, in each version
/// that has them, and whatever is read from it is what was written.
pub fn written_is_text()
    ensures text { (preamble : Before_nodes) (nodes : List TreeNode) (winner : Player)
        → IsExtent preamble.size.rows preamble.size.cols → All (NodeFits preamble) nodes
        → IsRootWinner nodes winner → IsNumber (length nodes)
        → IsTreeText (written_tree preamble nodes winner) nodes }
    ensures read_back { (preamble : Before_nodes) (nodes read : List TreeNode) (winner : Player)
        → IsExtent preamble.size.rows preamble.size.cols → All (NodeFits preamble) nodes
        → IsRootWinner nodes winner → IsNumber (length nodes)
        → IsTreeText (written_tree preamble nodes winner) read → read ≡ nodes }
{}

/// Bytes have one faulty line at the most, as the text of a tree and as the text of a position.
pub fn one_faulty_line()
    ensures trees { (bytes : List ℕ) (a b : ℕ) → IsFaultyLine AreTreeLines bytes a
        → IsFaultyLine AreTreeLines bytes b → a ≡ b }
    ensures positions { (bytes : List ℕ) (a b : ℕ) → IsFaultyLine ArePositionLines bytes a
        → IsFaultyLine ArePositionLines bytes b → a ≡ b }
{}

/// No line of a tree's text has more than 1,410 bytes, whatever the tree.
pub fn lines_are_short()
    ensures { (lines : List (List ℕ)) → AreTreeLines lines → AreShortLines lines }
{}
