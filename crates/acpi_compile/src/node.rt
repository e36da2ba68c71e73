//! What the text of a term is made of: a word, a list in parentheses, and a list in braces.

/// A word with its lists. A list may have empty words between commas.
#[derive(Drop)]
pub struct Node<'a> {
    /// The number of kept characters before it.
    pub at: usize,
    /// The note before it, or an empty one.
    pub note: &'a [u8],
    /// A keyword, a name, a number or a string with its quotation marks; empty where an argument is left out.
    pub word: &'a [u8],
    pub arguments: Option<Vec<Node<'a>>>,
    pub body: Option<Vec<Node<'a>>>,
}

/// A word without lists.
pub fn word_node<'a>(at: usize, note: &'a [u8], word: &'a [u8]) -> Node<'a> {
    Node {
        at,
        note,
        word,
        arguments: None,
        body: None,
    }
}

impl Node<'_> {
    /// Whether this is its word.
    pub fn is(&self, word: &[u8]) -> bool {
        self.word == word
    }

    /// Whether nothing stands here.
    pub fn is_absent(&self) -> bool {
        self.word.is_empty() && self.arguments.is_none() && self.body.is_none()
    }

    /// Whether it is a word alone.
    pub fn is_alone(&self) -> bool {
        self.arguments.is_none() && self.body.is_none()
    }
}

/// The nodes of a list that may be absent.
pub fn list_of<'a, 'b>(list: &'b Option<Vec<Node<'a>>>) -> &'b [Node<'a>] {
    match list {
        Some(nodes) => nodes,
        None => &[],
    }
}
