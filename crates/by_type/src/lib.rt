// What a file gives column by column, one sheet for each waste type: request j of document 02. Definitions, and the laws that they are the
// ledger's; `releases` and `columns` work them out.
#![tactic(auto)]
