ghost use Rattle.std.specs.Prelude.{ℕ, List, ◌++◌, length};
ghost use Rattle.word_stream.specs.declared.request.Request.{Request};
ghost use Rattle.word_stream.specs.declared.request.Response.{Response};
ghost use Rattle.word_stream.specs.declared.table.SiteTable.{SiteTable};
ghost use Rattle.word_stream.specs.Exchange.{exchange};
ghost use Rattle.word_stream.specs.Reading.{IsOf, Begins};

/// A law: what `words_of` writes of an exchange that a table allows, `read_words` reads back,
/// whatever follows.
pub fn exchanges_read_back()
    ensures { (table : SiteTable) (request : Request) (response : Response) (rest : List ℕ)
        → IsOf table request response
        → Begins table (exchange request response ++ rest) request response (length (exchange request response)) }
{}
